/// The version, which CHANGELOG.md owns.
pub const VERSION: &str = "1.0.0";

/// What `--version` writes.
pub const VERSION_LINE: &str = "fabricd 1.0.0\n";

/// The first line that a parent reads. The protocol of its lines has the number 1.
pub const FIRST_LINE: &str = "fabricd 1.0.0 1\n";

/// What `--help` writes, and what stands on standard error behind words that are no form of the program.
pub const HELP: &str = "\
fabricd 1.0.0
fabricd node N FILE [OPTION]..       runs node N of the cluster of FILE until it is told to end
fabricd arbiter A FILE [OPTION]..    runs arbitrator A of the cluster of FILE
fabricd check FILE                   reads FILE as a start does
fabricd ask FOLDER LINE..            asks the process that runs in FOLDER
fabricd again FILE FOLDER..          says how a ring whose nodes have all stopped begins again
fabricd --help | --version
  --folder D         the folder of the actor; by default the current one
  --listen ADDRESS   where the UDP socket is bound; by default where FILE says that the actor is
  --page ADDRESS     where the page is served; by default nowhere
  --key FILE         the key of sealed frames; by default frames are not sealed
  --parent           of a node: a parent's lines on standard input, answered on standard output
  --hold TICKS       with --parent: how long the parent may owe a `done`; by default half a lease
";
