// The label of an offer.
ghost use Rattle.std.specs.Prelude.{◌≡◌};
ghost use Rattle.layout.specs.Label.{trimmed_label, shown_label, is_label};

use layout::{LABEL_LEN, is_printable};

// The label without its last spaces.
pub(super) fn trim(label: &[u8]) -> &[u8]
    ensures { result.now ≡ trimmed_label label.now }
{
    let spaces = label.iter().rev().take_while(|byte| **byte == b' ').count();
    &label[..label.len() - spaces]
}

// Whether these are six bytes that a label may hold.
pub(super) fn is_label(label: &[u8]) -> bool
    ensures { result ≡ is_label label.now }
{
    label.len() == LABEL_LEN && label.iter().all(|byte| is_printable(*byte))
}

/// What a label that was read shows: itself, or the caller's default text where it is blank.
///
/// Neither is copied.
///
/// ```text
/// // record_tests: examples::of_labels
/// shown(b"fader", b"house")   // fader
/// shown(b"", b"house")        // house
/// ```
pub fn shown<'a>(label: &'a [u8], default: &'a [u8]) -> &'a [u8]
    ensures { result.now ≡ shown_label label.now default.now }
{
    if label.is_empty() { default } else { label }
}
