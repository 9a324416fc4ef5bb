//! What is known of a table that a word names.
ghost use Rattle.kr_model.specs.Protocol.{IsLawful};

use kr_protocol::Protocol;

/// Does nothing: a protocol is lawful, so what is proved of lawful ones holds for the table that a program was given.
pub fn lemma_lawful<P: Protocol>(protocol: &P)
    ensures { IsLawful (P.table protocol.now) }
{
    let _ = protocol;
}
