//! What a peer is reached by.

ghost use Rattle.std.specs.Prelude.{◌≡◌, ◌≤◌, ℕ, List, IfOk, IfSome, Option, length};
ghost use Rattle.desk_http_sessions.specs.Wire.{Receives, Sends};

use desk_http_messages::transport::Failed;

/// A connection to a peer. No call of it waits.
pub trait Wire {
    // The bytes that will come, if they are told.
    ghost left: { Self → Option (List ℕ) };
    // The bytes that were sent, if they are told.
    ghost held: { Self → Option (List ℕ) };

    /// Reads some bytes of those that have come: none into a buffer with room if no more will come, and nothing if none are there yet.
    fn receive(&mut self, buf: &mut [u8]) -> Result<Option<usize>, Failed>
        ensures room { length buf.new ≡ length buf.old }
        ensures count { IfOk result (λ found. IfSome found (λ n. n ≤ length buf.new)) }
        ensures received { Receives (left self.old) (left self.new) result buf.new }
        ensures held { held self.new ≡ held self.old };

    /// Sends some of the bytes, or nothing if none can be taken now.
    fn send(&mut self, buf: &[u8]) -> Result<Option<usize>, Failed>
        ensures count { IfOk result (λ found. IfSome found (λ n. n ≤ length buf.now)) }
        ensures sent { Sends (held self.old) (held self.new) result buf.now }
        ensures left { left self.new ≡ left self.old };
}
