// The refusals of a format: the tests in the papers' order, of which the first that applies gives the refusal.
#![tactic(auto, unfolding(crate::specs::Refusals::form_tests, crate::specs::Refusals::content_tests, crate::specs::Refusals::format_tests, layouts::specs::Refusals::track_tests, calls::specs::Refusals::told, verdicts::specs::Tests::refusal, verdicts::specs::Tests::by))]

ghost use Rattle.std.specs.Prelude.{◌≡◌, ◌*◌, ◌≤◌, length};
ghost use Rattle.verdicts.specs.Tests.{refusal};
ghost use Rattle.layouts.specs.Layouts.{fields};
ghost use Rattle.calls.specs.Refusals.{told};
ghost use Rattle.format.specs.Refusals.{marks_test, controls_test, form_tests, content_tests, format_tests};

use super::lengths::fields_of;
use calls::Refusal;
use layouts::{Layout, TrackNumbers};

// 6: whether there are more or fewer marks than sectors, or one is neither FB nor F8.
#[tactic(auto, unfolding(crate::specs::Refusals::some, calls::specs::Refusals::told, verdicts::specs::Tests::refusal, verdicts::specs::Tests::by))]
fn has_wrong_mark(sectors: usize, marks: &[u8]) -> bool
    ensures { result ≡ (marks_test sectors marks.now).applies }
{
    if marks.len() != sectors {
        return true;
    }
    for &mark in marks {
        if calls::mark_byte(mark as u32).is_err() {
            return true;
        }
    }
    false
}

// 7: whether on cylinder 0 a sector has the mark F8 and another first byte than D.
#[tactic(auto, unfolding(crate::specs::Refusals::some, calls::specs::Refusals::told, verdicts::specs::Tests::refusal, verdicts::specs::Tests::by))]
fn has_wrong_control(layout: Layout, cylinder: u32, contents: &[u8], marks: &[u8]) -> bool
    requires { (length contents.now ≡ layout.sectors * layout.size) × (length marks.now ≡ layout.sectors) × (1 ≤ layout.size) }
    ensures { result ≡ (controls_test layout cylinder contents.now marks.now).applies }
{
    let mut from = 0;
    for &mark in marks {
        if calls::control_record(cylinder, mark as u32, contents[from]).is_err() {
            return true;
        }
        from += layout.size;
    }
    false
}

// The form of a call: 2, 3, 4, 1.
fn form_tests(numbers: TrackNumbers, length: usize) -> Result<(), Refusal>
    ensures { result ≡ told (refusal (form_tests numbers.layout numbers.cylinder numbers.side length)) }
{
    numbers.tested()?;
    if length != layouts::layout_of(numbers.layout).image_bytes {
        return Err(Refusal::ImageLength);
    }
    Ok(())
}

// What is to be written: 5, 6, 7, 8.
fn content_tests(
    layout: Layout,
    cylinder: u32,
    contents: &[u8],
    marks: &[u8],
    length: usize,
) -> Result<(), Refusal>
    requires { (2 * fields layout ≤ 9223372036854775807) × (layout.area_bytes ≡ layout.sectors * layout.size) × (1 ≤ layout.size) × (1 ≤ layout.sectors) }
    ensures { result ≡ told (refusal (content_tests layout cylinder contents.now marks.now length)) }
{
    calls::area_length(layout.area_bytes, contents.len())?;
    if has_wrong_mark(layout.sectors, marks) {
        return Err(Refusal::MarkBytes);
    }
    if has_wrong_control(layout, cylinder, contents, marks) {
        return Err(Refusal::ControlRecord);
    }
    if length < 2 * fields_of(layout) {
        return Err(Refusal::Overfull);
    }
    Ok(())
}

// All the tests of a format: the form, and then the contents.
pub(crate) fn tested(
    numbers: TrackNumbers,
    contents: &[u8],
    marks: &[u8],
    length: usize,
) -> Result<(), Refusal>
    ensures { result ≡ told (refusal (format_tests numbers.layout numbers.cylinder numbers.side contents.now marks.now length)) }
{
    form_tests(numbers, length)?;
    content_tests(
        layouts::layout_of(numbers.layout),
        numbers.cylinder,
        contents,
        marks,
        length,
    )
}
