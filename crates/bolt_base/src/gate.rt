// Gates that pieces of work pass.

/// Told the number of each piece of work that is about to begin. What it does has no bearing on the
/// work, and it returns.
pub trait Gate {
    fn pass(&self, piece: u32);
}

/// A gate that holds nobody up.
#[derive(Clone, Copy, Debug)]
pub struct OpenGate;

impl Gate for OpenGate {
    fn pass(&self, _piece: u32) {}
}
