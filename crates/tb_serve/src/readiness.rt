/// Whether ports are ready for their parties, memory was refused, or a bind failed.
#[derive(Clone, Copy)]
pub enum Readiness {
    Ready,
    NoMemory,
    NotBound,
}
