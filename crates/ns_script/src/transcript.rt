//! Transcripts.

ghost use Rattle.std.specs.Prelude.{◌≡◌, ◌<◌, ◌≤◌, [], ◌++◌, length, slice_index_or, false, OnOk, IfOk};
ghost use Rattle.std.specs.List.{flat_map};
ghost use Rattle.std.specs.Fmt.{decimal, digit_glyph};
ghost use Rattle.ns_script.specs.Transcript as spec;

use crate::turn::name_at;
use cm_base::{Bytes, NoMemory, Stop, Text};
use ns_types::{CEvent, CEvents, End, Event, Events, View};
use std::alloc::Global;

fn stop_name(stop: Stop) -> &'static str
    ensures { result.now ≡ spec.stop_name stop }
{
    match stop {
        Stop::Divide => "Divide",
        Stop::Outside => "Outside",
        Stop::Misaligned => "Misaligned",
        Stop::DataStack => "DataStack",
        Stop::CallTarget => "CallTarget",
        Stop::EntryPoint => "EntryPoint",
        Stop::Access => "Access",
        Stop::ReturnFault => "ReturnFault",
        Stop::Astray => "Astray",
        Stop::StackLimit => "StackLimit",
        Stop::Undefined => "Undefined",
        Stop::Unaligned => "Unaligned",
        Stop::Unmapped => "Unmapped",
        Stop::BadState => "BadState",
    }
}

/// The digit of lower case.
fn glyph(d: u8) -> u8
    requires { d < 16 }
    ensures { result ≡ digit_glyph false d }
{
    if d < 10 { b'0' + d } else { b'a' - 10 + d }
}

#[tactic(auto, unfolding(crate::specs::Transcript::hex2))]
fn push_byte(out: &mut Bytes, n: u8) -> Result<(), NoMemory>
    ensures { OnOk result (out.new ≡ out.old ++ spec.hex2 n) }
{
    out.push(glyph(n / 16))?;
    out.push(glyph(n % 16))
}

#[tactic(auto, unfolding(crate::specs::Transcript::hex8))]
fn push_word(out: &mut Bytes, n: u32) -> Result<(), NoMemory>
    ensures { OnOk result (out.new ≡ out.old ++ spec.hex8 n) }
{
    push_byte(out, (n / 16_777_216) as u8)?;
    push_byte(out, (n / 65_536 % 256) as u8)?;
    push_byte(out, (n / 256 % 256) as u8)?;
    push_byte(out, (n % 256) as u8)
}

fn push_text(out: &mut Bytes, text: &str) -> Result<(), NoMemory>
    ensures { OnOk result (out.new ≡ out.old ++ text.now) }
{
    out.extend_from_slice(text.as_bytes())
}

/// ` NAME=VALUE`.
#[tactic(auto, unfolding(crate::specs::Transcript::field))]
fn push_field(out: &mut Bytes, name: &str, value: u32) -> Result<(), NoMemory>
    ensures { OnOk result (out.new ≡ out.old ++ spec.field name.now value) }
{
    push_text(out, " ")?;
    push_text(out, name)?;
    push_text(out, "=")?;
    push_word(out, value)
}

/// The fields of r0 and the registers after it.
#[tactic(auto, using(crate::proofs::TranscriptLaws::fields))]
fn push_fields(out: &mut Bytes, values: &[u32]) -> Result<(), NoMemory>
    requires { length values.now ≤ 13 }
    ensures { OnOk result (out.new ≡ out.old ++ spec.fields_from 0 values.now) }
{
    let mut k: u32 = 0;
    for value in values {
        push_field(out, name_at(k), *value)?;
        k += 1;
    }
    Ok(())
}

#[tactic(auto, unfolding(crate::specs::Transcript::given_line))]
fn push_given(out: &mut Bytes, view: &View) -> Result<(), NoMemory>
    ensures { OnOk result (out.new ≡ out.old ++ spec.given_line view.now) }
{
    push_text(out, "given")?;
    push_field(out, "pc", view.pc)?;
    push_fields(out, &view.r)?;
    push_field(out, "lr", view.lr)?;
    push_text(out, " flags=")?;
    push_byte(out, view.nzcvq)?;
    push_field(out, "msp", view.msp_ns)?;
    push_field(out, "psp", view.psp_ns)?;
    push_text(out, "\n")
}

/// A number in decimal.
fn push_decimal(alloc: Global, out: &mut Bytes, n: u64) -> Result<(), NoMemory>
    ensures { OnOk result (out.new ≡ out.old ++ decimal n) }
{
    let text = format!(in alloc; "{n}")?;
    push_text(out, text.as_str())
}

#[tactic(auto, unfolding(crate::specs::Transcript::wrote_line))]
fn push_wrote(alloc: Global, out: &mut Bytes, at: u32, size: u8, value: u32) -> Result<(), NoMemory>
    ensures { OnOk result (out.new ≡ out.old ++ spec.wrote_line at size value) }
{
    push_text(out, "wrote at=")?;
    push_word(out, at)?;
    push_text(out, " size=")?;
    push_decimal(alloc, out, u64::from(size))?;
    push_text(out, " value=")?;
    push_word(out, value)?;
    push_text(out, "\n")
}

fn push_stopped(out: &mut Bytes, stop: Stop) -> Result<(), NoMemory>
    ensures { OnOk result (out.new ≡ out.old ++ spec.stopped_line stop) }
{
    push_text(out, "stopped ")?;
    push_text(out, stop_name(stop))?;
    push_text(out, "\n")
}

/// One line for an event.
#[tactic(auto, unfolding(crate::specs::Transcript::event_line))]
fn push_event(alloc: Global, out: &mut Bytes, event: &Event) -> Result<(), NoMemory>
    ensures { OnOk result (out.new ≡ out.old ++ spec.event_line event.now) }
{
    match *event {
        Event::Given(view) => push_given(out, &view),
        Event::Wrote { at, size, value } => push_wrote(alloc, out, at, size, value),
        Event::Stopped(stop) => push_stopped(out, stop),
    }
}

fn end_line(end: End) -> &'static str
    ensures { result.now ≡ spec.end_line end }
{
    match end {
        End::Stopped => "end stopped\n",
        End::Waiting => "end waiting\n",
        End::Spent => "end spent\n",
    }
}

/// The transcript of a run of the machine: a line for each event, and a last one for the end.
#[tactic(auto, unfolding(crate::specs::Transcript::transcript_of))]
pub fn print_events(alloc: Global, events: &Events) -> Result<Bytes, NoMemory>
    ensures { IfOk result (λ text. text ≡ spec.transcript_of events.now) }
{
    let mut out = Bytes::new(alloc);
    for event in events.list.as_slice() {
        push_event(alloc, &mut out, event)?;
    }
    push_text(&mut out, end_line(events.end))?;
    Ok(out)
}

/// ` VALUE`.
#[tactic(auto, unfolding(crate::specs::Transcript::spaced))]
fn push_spaced(out: &mut Bytes, value: u32) -> Result<(), NoMemory>
    ensures { OnOk result (out.new ≡ out.old ++ spec.spaced value) }
{
    push_text(out, " ")?;
    push_word(out, value)
}

/// The name of the entry of this number, or the empty one where there are fewer.
fn entry_name(names: &[Text], entry: u32) -> &[u8]
    ensures { result.now ≡ slice_index_or names.now entry [] }
{
    match names.get(entry as usize) {
        Some(name) => name.as_slice(),
        None => &[],
    }
}

#[tactic(auto, unfolding(crate::specs::Transcript::result_line))]
fn push_result(out: &mut Bytes, name: &[u8], r0: u32) -> Result<(), NoMemory>
    ensures { OnOk result (out.new ≡ out.old ++ spec.result_line name.now r0) }
{
    push_text(out, "result ")?;
    out.extend_from_slice(name)?;
    push_spaced(out, r0)?;
    push_text(out, "\n")
}

/// Each value behind a blank.
fn push_all_spaced(out: &mut Bytes, values: &[u32]) -> Result<(), NoMemory>
    ensures { OnOk result (out.new ≡ out.old ++ flat_map spec.spaced values.now) }
{
    for value in values {
        push_spaced(out, *value)?;
    }
    Ok(())
}

#[tactic(auto, unfolding(crate::specs::Transcript::called_line))]
fn push_called(out: &mut Bytes, target: u32, args: &[u32]) -> Result<(), NoMemory>
    ensures { OnOk result (out.new ≡ out.old ++ spec.called_line target args.now) }
{
    push_text(out, "called")?;
    push_spaced(out, target)?;
    push_all_spaced(out, args)?;
    push_text(out, "\n")
}

/// One line for an event of a C program whose entries have these names.
#[tactic(auto, unfolding(crate::specs::Transcript::c_event_line))]
fn push_c_event(
    alloc: Global,
    out: &mut Bytes,
    names: &[Text],
    event: &CEvent,
) -> Result<(), NoMemory>
    ensures { OnOk result (out.new ≡ out.old ++ spec.c_event_line names.now event.now) }
{
    match event {
        CEvent::Started => push_text(out, "started\n"),
        CEvent::Wrote { at, size, value } => push_wrote(alloc, out, *at, *size, *value),
        CEvent::Result { entry, r0 } => push_result(out, entry_name(names, *entry), *r0),
        CEvent::Called { target, args } => push_called(out, *target, args.as_slice()),
        CEvent::Stopped(stop) => push_stopped(out, *stop),
    }
}

#[tactic(auto, unfolding(crate::specs::Transcript::peak_line))]
fn push_peak(alloc: Global, out: &mut Bytes, peak: u64) -> Result<(), NoMemory>
    ensures { OnOk result (out.new ≡ out.old ++ spec.peak_line peak) }
{
    push_text(out, "peak ")?;
    push_decimal(alloc, out, peak)?;
    push_text(out, "\n")
}

/// The transcript of a run of a C program whose entries have these names: a line for each event, one for the end, and a last one
/// for the peak. An entry without a name is printed with the empty one.
#[tactic(auto, unfolding(crate::specs::Transcript::c_transcript_of))]
pub fn print_trace(alloc: Global, events: &CEvents, names: &[Text]) -> Result<Bytes, NoMemory>
    ensures { IfOk result (λ text. text ≡ spec.c_transcript_of names.now events.now) }
{
    let mut out = Bytes::new(alloc);
    for event in events.list.as_slice() {
        push_c_event(alloc, &mut out, names, event)?;
    }
    push_text(&mut out, end_line(events.end))?;
    push_peak(alloc, &mut out, events.peak)?;
    Ok(out)
}
