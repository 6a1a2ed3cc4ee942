mod answers;
mod full;
mod questions;
mod records;
mod registers;
mod restarts;
mod rounds;
