/// The version, which CHANGELOG.md owns, and the forms of the program, a line each.
pub const FORMS: &str = "\
fabric 1.0.0
fabric replay          runs the schedule on standard input and writes its report
fabric trace           runs the schedule on standard input and writes its transcript
fabric writes          runs the schedule on standard input and writes its committed logs
fabric audit           judges the transcript on standard input
fabric node N T        runs node N for T turns, by the plan on standard input
fabric arbiter A T     runs arbitrator A for T turns, by the plan on standard input
fabric cluster T       runs all nodes and arbitrators for T turns, by the plan on standard input
fabric generate S N R  writes a schedule of N nodes and R rounds, by the seed S
fabric drill S N R     runs that schedule and writes its numbers
";
