//! What a program written in C calls to write or draft a sheet, to replay and judge one, and to read its result words;
//! include/daisarnica_sheet.h declares it.
#![tactic(auto)]

ghost use Rattle.std.specs.Prelude.{◌≡◌, ◌∷◌, ◌^◌, ◌<◌};
ghost use Rattle.protocol.specs.Causes.{verdict_number};
ghost use Rattle.protocol.specs.Premises.{judge, judged_numbers};
ghost use Rattle.protocol.specs.Results.{replay, replayed_numbers};
ghost use Rattle.protocol.specs.Recorder.{setting_from, write_sheet};
ghost use Rattle.protocol.specs.Draft.{draft};
ghost use Rattle.protocol.specs.Readers.{display, plan};
ghost use Rattle.sheet_c.specs.Numbers.{AgreesInNumbers, RecordedIfAccepted, DraftedIfAccepted, ShownIfResult, PlannedIfResult, answer_numbers, judged_number, place_in};

use judge_sheet::replay_and_judge;
use protocol::{Cause, Refusal};
use sheet_display::display;
use sheet_draft::draft_sheet;
use sheet_numbers::SettingNumbers;
use sheet_plan::plan;
use sheet_writer::write_sheet;

// The replay's cause and place, the judge's, and the first broken premise; each 0 where there is none.
fn answer_numbers(r: Result<(), Refusal>, j: Result<Option<u8>, Refusal>) -> [u32; 5]
    requires { (place_in (replayed_numbers r) < 2 ^ 32) × (place_in (judged_numbers j) < 2 ^ 32) }
    ensures { result ≡ answer_numbers r j }
{
    let (cause, place) = match r {
        Ok(()) => (0, 0),
        Err(refusal) => (u32::from(refusal.cause), refusal.place as u32),
    };
    match j {
        Ok(None) => [cause, place, 0, 0, 0],
        Ok(Some(i)) => [cause, place, 0, 0, u32::from(i)],
        Err(refusal) => [
            cause,
            place,
            u32::from(refusal.cause),
            refusal.place as u32,
            0,
        ],
    }
}

fn judged_number(j: Result<Option<u8>, Refusal>) -> u32
    ensures { result ≡ judged_number j }
{
    match j {
        Ok(None) => 0,
        Ok(Some(i)) => u32::from(i),
        Err(refusal) => 16 + u32::from(refusal.cause),
    }
}

fn verdict_number(v: Result<(), Cause>) -> u32
    ensures { result ≡ verdict_number v }
{
    v.err().map_or(0, u32::from)
}

/// Writes a run sheet from its fields into a lent buffer; returns 0 or the cause.
#[unsafe(no_mangle)]
pub extern "C" fn daisarnica_write_sheet(
    n: u32,
    f: u32,
    correct: u32,
    drift: u32,
    tightness: u32,
    numbers: &[u32],
    out: &mut [u32],
) -> u32
    ensures { (result ≡ verdict_number (write_sheet (setting_from n f correct drift tightness) numbers.now out.old).verdict)
        × (out.new ≡ (write_sheet (setting_from n f correct drift tightness) numbers.now out.old).buffer)
        × RecordedIfAccepted (setting_from n f correct drift tightness) numbers.now result out.new }
{
    let setting = SettingNumbers {
        n,
        f,
        correct,
        drift,
        tightness,
    };
    verdict_number(write_sheet(setting, numbers, out))
}

/// Drafts a plain round's sheet into a lent buffer; returns 0 or the cause.
#[unsafe(no_mangle)]
pub extern "C" fn daisarnica_draft_sheet(
    n: u32,
    f: u32,
    first: u32,
    spacing: u32,
    out: &mut [u32],
) -> u32
    ensures { (result ≡ verdict_number (draft n f first spacing out.old).verdict)
        × (out.new ≡ (draft n f first spacing out.old).buffer)
        × DraftedIfAccepted n result out.new }
{
    verdict_number(draft_sheet(n, f, first, spacing, out))
}

/// Replays a sheet into a lent buffer and judges it; writes the five numbers of both answers and returns the judge's in one.
#[unsafe(no_mangle)]
pub extern "C" fn daisarnica_replay_and_judge(
    sheet: &[u32],
    out: &mut [u32],
    answer: &mut [u32; 5],
) -> u32
    ensures { (result ≡ judged_number (judge sheet.now))
        × (answer.new ≡ answer_numbers (replay sheet.now out.old).answer (judge sheet.now))
        × (out.new ≡ (replay sheet.now out.old).buffer)
        × AgreesInNumbers sheet.now result answer.new out.new }
{
    let report = replay_and_judge(sheet, out);
    *answer = answer_numbers(report.replayed, report.judged);
    judged_number(report.judged)
}

/// Reads what result words say of a head, for the carriage display; returns 0 or the cause.
#[unsafe(no_mangle)]
pub extern "C" fn daisarnica_display(n: u32, head: u32, words: &[u32], shown: &mut [i64; 6]) -> u32
    ensures { (result ≡ verdict_number (display n head words.now).verdict)
        × (shown.new ≡ (display n head words.now).numbers)
        × ShownIfResult n head words.now result shown.new }
{
    verdict_number(display(n, head, words, shown))
}

/// The same and the frames that the head broadcast, for the bus planner.
#[unsafe(no_mangle)]
pub extern "C" fn daisarnica_plan(n: u32, head: u32, words: &[u32], told: &mut [i64; 9]) -> u32
    ensures { (result ≡ verdict_number (plan n head words.now).verdict)
        × (told.new ≡ (plan n head words.now).numbers)
        × PlannedIfResult n head words.now result told.new }
{
    verdict_number(plan(n, head, words, told))
}
