//! Runs that a fault ended: what the source of reports had given until then, and with what the program was called. A
//! contract that says what a program has done when it ends with a fault uses these definitions. They stand in
//! `specs/` and the proofs in `proofs/`; there is no code here.
