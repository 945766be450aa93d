//! Membership of texts in lists, and comparison of names that ignores ASCII case.
ghost use Rattle.std.specs.Prelude.{◌≡◌, IsTrue, map};
ghost use Rattle.al_base.specs.Names.{among, same_name};

/// Whether a text is one of some others.
#[inline(always)]
pub fn is_among(text: &[u8], others: &[&str]) -> bool
    ensures { result ≡ among (map (λ t. t.now) others.now) text.now }
{
    others.iter().any(|other| text == other.as_bytes())
}

/// Whether two names or texts are equal, ignoring the case of ASCII letters; other bytes are
/// compared exactly. Doesn't allocate.
pub fn is_same_name(a: &[u8], b: &[u8]) -> bool
    ensures { result ≡ same_name a.now b.now }
{
    end_alike(a, b) && (a == b || a.eq_ignore_ascii_case(b))
}

/// Whether two texts have the same length and last bytes, as equal ones do. This rules out most
/// others.
fn end_alike(a: &[u8], b: &[u8]) -> bool
    ensures { IsTrue (same_name a.now b.now) → IsTrue result }
{
    let length = a.len();
    if length != b.len() {
        return false;
    }
    length == 0 || a[length - 1].eq_ignore_ascii_case(&b[length - 1])
}
