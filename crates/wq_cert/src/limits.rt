//! The limits of certificates, assignments and runs ("Certificates" in docs/FORMAT.md).

/// The most bytes that a certificate, an assignment or a run may have: 8 MiB. What is printed has less than half of
/// that: up to 4,096 arcs and 45,056 steps, with names of up to 63 bytes.
pub const MAX_CERTIFICATE: u32 = 8_388_608;

/// The most bytes that a line of it may have, without its line feed and a carriage return before it: 512 KiB. A `wq`
/// line of 4,096 items, each with a name of 63 bytes, has just over 256 KiB.
pub const MAX_CERTIFICATE_LINE: u32 = 524_288;

/// The most workqueues, groups or arcs that a certificate may count: as many as a declaration may have items, since no
/// answer has more.
pub const MAX_COUNT: u32 = 4096;
