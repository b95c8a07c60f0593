// What GET uses, and what it reads, also of what PUT wrote.

ghost use Rattle.pearl_scan.specs.Laws.{ReadsValuesOfKinds, ReadsWhatIsWritten, UsesNoMore};

/// The values that GET gets are of its targets' kinds, one for each, where the items suit the kinds and the bytes are
/// those of texts and line ends.
pub fn what_is_got_is_of_the_kinds()
    ensures { ReadsValuesOfKinds }
{}

/// What PUT writes by items that show all of their values (B, F and D of any width, T from a width of 12 on, X and
/// SKIP), GET reads as the same values by the same items, and uses just that text, whatever stands behind it.
pub fn what_is_written_is_read_back()
    ensures { ReadsWhatIsWritten }
{}

/// A scan uses no more bytes than there are.
pub fn no_more_bytes_are_used_than_there_are()
    ensures { UsesNoMore }
{}
