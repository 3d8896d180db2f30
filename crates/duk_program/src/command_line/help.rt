//! The text at the end of each help: examples, faults and statuses.

/// At the end of the program's help.
pub(crate) const PROGRAM: &str = "\
Example:
  $ echo 0123456789ABCDEFFEDCBA9876543210 >bdk.txt
  $ dukpt derive @bdk.txt FFFF9876543210E00001
  initial 6AC292FAA1315B4D858AB3A3D7D5933A
  key 042666B49184CFA368DE9628D0397BC9
  pin 042666B49184CF5C68DE9628D0397B36

Status:
  0  Done, and no fault is on standard error
  1  A fault, and its line is on standard error
  2  The arguments are refused, and standard error says why
  3  Done, but what `reply` told of is a refusal, which nothing authenticates

Write a secret as @FILE (the first line of a file) or @- (of standard input): a command line is shown
to every user of the machine, and stays in the shell's history. As words use test keys alone.

The help of each command has its examples and its faults. With --explain, anywhere before a --, a
line behind that of a fault says what was found and what is wanted; with --json what a command prints
is a JSON object for each answer, and with --progress a long one tells how far it is.";
