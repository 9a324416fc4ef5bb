//! Whether replies part at the last.
ghost use Rattle.std.specs.Prelude.{◌≡◌, false};
ghost use Rattle.kr_model.specs.Run.{is_granted};
ghost use Rattle.kr_apart.specs.Apart.{is_blocked};
ghost use Rattle.kr_apart.specs.Flags.{part};

use kr_model::Reply;

/// Whether the replies to one script under two tables are granted up to the last, which is granted under one of the two and
/// blocked under the other.
pub(crate) fn part(one: &[Reply], other: &[Reply]) -> bool
    ensures { result ≡ part false one.now other.now }
{
    if one.len() != other.len() {
        return false;
    }
    let mut is_over = false;
    for place in 0..one.len() {
        let (here, there) = (&one[place], &other[place]);
        if is_over {
            return false;
        }
        if is_granted(here) {
            if !is_granted(there) {
                if !is_blocked(there) {
                    return false;
                }
                is_over = true;
            }
        } else {
            if !(is_blocked(here) && is_granted(there)) {
                return false;
            }
            is_over = true;
        }
    }
    is_over
}

/// Whether a reply is neither blocked nor refused.
fn is_granted(reply: &Reply) -> bool
    ensures { result ≡ is_granted reply.now }
{
    !matches!(reply, Reply::Blocked(_) | Reply::Refused(_))
}

/// Whether a reply is blocked.
fn is_blocked(reply: &Reply) -> bool
    ensures { result ≡ is_blocked reply.now }
{
    matches!(reply, Reply::Blocked(_))
}
