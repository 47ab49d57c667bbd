//! Why a book has no certificate.

/// Why a book has no certificate.
#[derive(Clone, Copy, PartialEq, Eq)]
pub enum CertError {
    /// A slot is open, held or parked.
    StillOpen,
    /// There was no memory for it.
    NoMemory,
}
