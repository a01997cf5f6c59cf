//! What the exchanges of a session come to, as a function that does nothing of its own.

ghost use Rattle.desk_http_sessions.specs.Laws.{ExchangesFollow};

use crate::wire::Wire;

/// What is exchanged with a peer turn by turn is one exchange.
pub fn exchanges_follow<W: Wire + Drop>()
    ensures { ExchangesFollow W W.left W.held }
{}
