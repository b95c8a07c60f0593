// Which bytes count as blanks, and texts without those at their ends.

ghost use Rattle.std.specs.Prelude.{◌≡◌, ◌<◌, ◌==◌, ℕ, Option, Some, None, IfSome, IfNone, List, true, false, drop, length, slice_index};
ghost use Rattle.pearl_rules.specs.Literals as spec;
ghost use Rattle.pearl_scan.specs.Gaps as gaps;

/// Which bytes count as blanks.
#[derive(Clone, Copy, PartialEq, Eq, Debug)]
pub enum Gap {
    /// A blank alone, as in the field of a format item.
    Blanks,
    /// A blank or a tab, as in a line of a journal.
    BlanksAndTabs,
}

fn is_gap(gap: Gap, byte: u8) -> bool
    ensures { result ≡ gaps.is_gap gap byte }
{
    match gap {
        Gap::Blanks => byte == b' ',
        Gap::BlanksAndTabs => byte == b' ' || byte == b'\t',
    }
}

/// A text without the blanks at its front.
pub(crate) fn behind_blanks(gap: Gap, text: &[u8]) -> &[u8]
    ensures { result.now ≡ spec.behind_blanks (gaps.is_gap gap) text.now }
{
    let mut start = 0;
    while start < text.len() && is_gap(gap, text[start]) {
        start += 1;
    }
    &text[start..]
}

// A text without the blanks at its end.
fn before_blanks(gap: Gap, text: &[u8]) -> &[u8]
    ensures { result.now ≡ spec.before_blanks (gaps.is_gap gap) text.now }
{
    let mut end = text.len();
    while end > 0 && is_gap(gap, text[end - 1]) {
        end -= 1;
    }
    &text[..end]
}

/// A text without the blanks at both ends.
pub fn bare(gap: Gap, text: &[u8]) -> &[u8]
    ensures { result.now ≡ spec.bare (gaps.is_gap gap) text.now }
{
    before_blanks(gap, behind_blanks(gap, text))
}

/// What stands behind `-` and any number of blanks, where the text begins with `-`.
pub(crate) fn behind_minus(gap: Gap, text: &[u8]) -> Option<&[u8]>
    ensures some { IfSome result (λ rest. (slice_index text.now 0 == 45 ≡ true)
        × (rest.now ≡ spec.behind_blanks (gaps.is_gap gap) (drop 1 text.now))) }
    ensures none { IfNone result (slice_index text.now 0 == 45 ≡ false) }
{
    if text.is_empty() || text[0] != b'-' {
        return None;
    }
    Some(behind_blanks(gap, &text[1..]))
}

/// What stands behind one blank or more, where the text begins with a blank.
pub(crate) fn behind_gap(gap: Gap, text: &[u8]) -> Option<&[u8]>
    requires { 0 < length text.now }
    ensures some { IfSome result (λ rest. (later : List ℕ → Option ℕ) →
        spec.behind_amount (gaps.is_gap gap) later text.now ≡ later rest.now) }
    ensures none { IfNone result ((later : List ℕ → Option ℕ) →
        spec.behind_amount (gaps.is_gap gap) later text.now ≡ None) }
{
    if !is_gap(gap, text[0]) {
        return None;
    }
    Some(behind_blanks(gap, &text[1..]))
}
