/// A moment of a worker's turn at which it passes the gate, and holds no lock.
#[derive(Clone, Copy, Debug, PartialEq, Eq)]
pub enum Point {
    /// The worker has claimed a pair.
    Claimed,
    /// The worker's search for a proof has ended.
    Proved,
    /// The worker has ended its claim and left the lock.
    Left,
}

/// What workers pass at the points of their turns; tests hold workers there.
pub trait Gate {
    /// Worker `worker`, counted from 1, is at `point`. Changes nothing and answers nothing.
    fn at(&self, worker: u32, point: Point);
}

/// The gate that lets everybody pass at once.
#[derive(Clone, Copy, Debug, PartialEq, Eq)]
pub struct OpenGate;

impl Gate for OpenGate {
    fn at(&self, _worker: u32, _point: Point) {}
}
