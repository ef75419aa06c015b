// The text review as C calls it, each door by its plain name; include/desk.h declares them. A slice is a pointer and a length to C.
#![tactic(auto)]

ghost use Rattle.desk.specs.Promise.{TextReviewed};
ghost use Rattle.desk.specs.Evidence.{TextEvidenced};

// The verdict's number, and the report.
#[unsafe(no_mangle)]
pub extern "C" fn review_text(text: &[u8], report: &mut [u8]) -> u32
    ensures { TextReviewed text.now report.old report.new result }
{
    desk::review_text(text, report)
}

// The same, and after the report the schedules that show a reuse fault or a race.
#[unsafe(no_mangle)]
pub extern "C" fn review_text_evidence(text: &[u8], report: &mut [u8]) -> u32
    ensures { TextEvidenced text.now report.old report.new result }
{
    desk::review_text_evidence(text, report)
}
