//! The selection functions S1 to S8 of DES (NIST SP 800-67 appendix A), each as a circuit of gates.

mod s1;
mod s2;
mod s3;
mod s4;
mod s5;
mod s6;
mod s7;
mod s8;

pub(crate) use s1::select1;
pub(crate) use s2::select2;
pub(crate) use s3::select3;
pub(crate) use s4::select4;
pub(crate) use s5::select5;
pub(crate) use s6::select6;
pub(crate) use s7::select7;
pub(crate) use s8::select8;
