ghost use Rattle.std.specs.Prelude.{◌≡◌, ◌<◌, ◌≤◌};
ghost use Rattle.serve_edge.specs.Places;

use door_io::MAX_CLIENTS;

/// Where a client with this number is.
pub fn place_of(number: u32) -> usize
    ensures place { result ≡ Places.place_of number }
    ensures within { result < 64 }
{
    number as usize % MAX_CLIENTS
}

/// The number of the next client at the place of one with this number. Behind the greatest one numbers begin again, and
/// none is below `MAX_CLIENTS`. So no two clients that are there have the same one.
pub fn later_number(number: u32) -> u32
    ensures later { result ≡ Places.later_number number }
    ensures place { Places.place_of result ≡ Places.place_of number }
    ensures given { 64 ≤ result }
{
    let places = MAX_CLIENTS as u32;
    match number.checked_add(places) {
        Some(later) => later,
        None => number % places + places,
    }
}

/// The place so many steps behind the one that comes first, in rotation. So each place comes once in as many steps.
pub fn place_behind(first: usize, step: usize, places: usize) -> usize
    requires first { first < places }
    requires step { step ≤ places }
    requires few { places ≤ 64 }
    ensures place { result ≡ Places.place_behind first step places }
    ensures within { result < places }
{
    (first + step) % places
}
