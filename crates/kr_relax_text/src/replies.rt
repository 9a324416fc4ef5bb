//! The last of some replies.
ghost use Rattle.std.specs.Prelude.{◌≡◌};
ghost use Rattle.kr_model.specs.Run.{is_granted};
ghost use Rattle.kr_apart.specs.Apart.{is_blocked};
ghost use Rattle.kr_relax_text.specs.Scripts.{last_is};

use kr_model::Reply;

/// Whether a reply is blocked.
fn is_blocked(reply: &Reply) -> bool
    ensures { result ≡ is_blocked reply.now }
{
    matches!(reply, Reply::Blocked(_))
}

/// Whether a reply is neither blocked nor refused.
fn is_granted(reply: &Reply) -> bool
    ensures { result ≡ is_granted reply.now }
{
    !matches!(reply, Reply::Blocked(_) | Reply::Refused(_))
}

/// Whether the last reply is blocked.
pub(crate) fn ends_blocked(replies: &[Reply]) -> bool
    ensures { result ≡ last_is is_blocked replies.now }
{
    match replies.last() {
        Some(reply) => is_blocked(reply),
        None => false,
    }
}

/// Whether the last reply is neither blocked nor refused.
pub(crate) fn ends_granted(replies: &[Reply]) -> bool
    ensures { result ≡ last_is is_granted replies.now }
{
    match replies.last() {
        Some(reply) => is_granted(reply),
        None => false,
    }
}
