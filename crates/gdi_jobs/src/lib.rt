// Sagem GDI jobs. What they mean stands in specs/, and laws about it in proofs/; the code is in the crates above, and these constants are what they
// share.
#![tactic(auto)]

// The head of a job.
pub const HEAD: [u8; 86] =
    *b") SAG-GDI RL;0;0;Comment Copyright Sagem Communication 2005. Version 1.0.0.0\r\n\x10\x00\x02\x00\x00\x00\x00\x00";

// The most bytes of a job.
pub const LONGEST: usize = 16777216;

// The most dots of a row, and of a command.
pub const WIDEST: usize = 16383;
