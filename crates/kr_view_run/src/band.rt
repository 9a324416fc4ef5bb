//! The band of a step: what was asked and answered in words, and its drawing.
ghost use Rattle.std.specs.Prelude.{◌≡◌, ◌++◌, ◌∷◌, [], List, IfOk, OnOk, string_bytes};
ghost use Rattle.kr_view_scenes.specs.Scenes.{NumberedStep, step_of};
ghost use Rattle.kr_view_scenes.specs.declared.act.Act.TheVariants as act_is;
ghost use Rattle.kr_view_scenes.specs.Words.{op_words, reply_words};
ghost use Rattle.kr_view_run.specs.Page.{AreBands, asked_words, band_head, purge_kind, purge_words};

use crate::drawing::write_drawing;
use crate::frame::BAND_END;
use kr_locks::Memory;
use kr_model::{Event, Op, Reply, Span, Txn};
use kr_protocol::{Protocol, name_or_empty};
use kr_view_scenes::{
    Act, Asked, Columns, Difference, Html, Layout, Mark, Part, Scene, kind_of, write_name,
    write_numbers, write_op, write_reply,
};
use std::alloc::Global;

/// What the bands of a run have in common.
#[derive(Clone, Copy)]
pub struct Setting<'a> {
    pub columns: &'a Columns,
    pub layout: &'a Layout,
    /// The first operation whose answer isn't that of a serial run.
    pub difference: Option<Difference<'a>>,
    /// What their ids begin with, before the number of the step.
    pub ids: &'a str,
}

/// Writes the band of a step behind those of other steps.
pub fn push_band<P: Protocol>(
    alloc: Global,
    protocol: &P,
    setting: &Setting<'_>,
    scene: &Scene,
    bands: &mut String,
) -> Result<(), Memory>
    ensures { (steps : List NumberedStep) → AreBands setting.now.ids.now steps (string_bytes bands.old)
        → OnOk result (AreBands setting.now.ids.now (steps ++ step_of scene.now ∷ []) (string_bytes bands.new)) }
{
    let head = head_of(alloc, setting.ids, scene)?;
    let telling = telling_of(alloc, protocol, setting, scene)?;
    bands.push_str(head.as_str())?;
    bands.push_str(telling.as_str())?;
    bands.push_str(BAND_END)?;
    Ok(())
}

/// The head of the band of a step.
fn head_of(alloc: Global, ids: &str, scene: &Scene) -> Result<String, Memory>
    ensures { IfOk result (λ head. string_bytes head ≡ band_head ids.now (step_of scene.now)) }
{
    match &scene.act {
        Act::Attempt(event, reply) => attempt_head(alloc, ids, scene.number, *event, reply),
        Act::Purge(key, is_purged) => purge_head(alloc, ids, scene.number, *key, *is_purged),
    }
}

/// The head of the band of an operation that was answered so.
fn attempt_head(
    alloc: Global,
    ids: &str,
    number: u64,
    event: Event,
    reply: &Reply,
) -> Result<String, Memory>
    ensures { IfOk result (λ head. string_bytes head ≡ band_head ids.now (number, act_is.Attempt event reply.now)) }
{
    let op = op_of(alloc, event.op)?;
    let told = reply_of(alloc, reply)?;
    let asked = asked_of(alloc, number, event.txn, op.as_str())?;
    let kind = kind_of(reply);
    let (asked, reply) = (asked.as_str(), told.as_str());
    format!(in alloc;
        "<section id=\"{ids}{number}\" class=\"{kind}\">\n<h3><span>{asked}</span> <span class=\"reply\">{reply}</span></h3>\n"
    )
}

/// The head of the band of a purge that took its ghost away or not.
fn purge_head(
    alloc: Global,
    ids: &str,
    number: u64,
    key: u64,
    is_purged: bool,
) -> Result<String, Memory>
    ensures { IfOk result (λ head. string_bytes head ≡ band_head ids.now (number, act_is.Purge key is_purged)) }
{
    let (kind, reply) = (purge_kind(is_purged), purge_words(is_purged));
    format!(in alloc;
        "<section id=\"{ids}{number}\" class=\"{kind}\">\n<h3><span>Step {number}: purge {key}</span> <span class=\"reply\">{reply}</span></h3>\n"
    )
}

/// What is told of a purge that took its ghost away or not.
fn purge_words(is_purged: bool) -> &'static str
    ensures { result.now ≡ purge_words is_purged }
{
    if is_purged { "purged" } else { "kept" }
}

/// The class of the band of such a purge.
fn purge_kind(is_purged: bool) -> &'static str
    ensures { result.now ≡ purge_kind is_purged }
{
    if is_purged { "granted" } else { "refused" }
}

/// Which step of which transaction asks for an operation, whose words these are.
fn asked_of(alloc: Global, number: u64, txn: Txn, op: &str) -> Result<String, Memory>
    ensures { IfOk result (λ asked. string_bytes asked ≡ asked_words number txn op.now) }
{
    format!(in alloc; "Step {number}: transaction {txn}, {op}")
}

/// An operation in words.
fn op_of(alloc: Global, op: Op) -> Result<Html, Memory>
    ensures { IfOk result (λ words. words ≡ op_words op) }
{
    let mut words = Html::new(alloc);
    write_op(&mut words, op)?;
    Ok(words)
}

/// A reply in words.
fn reply_of(alloc: Global, reply: &Reply) -> Result<Html, Memory>
    ensures { IfOk result (λ words. words ≡ reply_words reply.now) }
{
    let mut words = Html::new(alloc);
    write_reply(&mut words, reply)?;
    Ok(words)
}

/// What a band tells behind its head: the serial answer where it differs, what a blocked step requested, and the drawing.
fn telling_of<P: Protocol>(
    alloc: Global,
    protocol: &P,
    setting: &Setting<'_>,
    scene: &Scene,
) -> Result<Html, Memory> {
    let mut telling = Html::new(alloc);
    if let Some(difference) = setting.difference {
        write_difference(scene.number, difference, &mut telling)?;
    }
    for request in &scene.asked {
        write_request(protocol, request, &mut telling)?;
    }
    write_drawing(alloc, setting.columns, setting.layout, scene, &mut telling)?;
    Ok(telling)
}

/// Writes the serial answer, where this step gave another.
fn write_difference(number: u64, difference: Difference<'_>, out: &mut Html) -> Result<(), Memory> {
    if difference.answered != number {
        return Ok(());
    }
    out.put(&[Part::Mark(Mark::Differs), Part::Text("✗ In a serial run: ")])?;
    write_reply(out, difference.serial)?;
    out.mark(Mark::EndParagraph)
}

/// Writes in words what a blocked step requested, and whose locks conflicted with it.
fn write_request<P: Protocol>(protocol: &P, request: &Asked, out: &mut Html) -> Result<(), Memory> {
    out.put(&[
        Part::Mark(Mark::Paragraph),
        Part::Text("Asked for "),
        Part::Text(name_or_empty(protocol, request.mode)),
        Part::Text(" on "),
    ])?;
    write_name(out, request.name)?;
    out.text(match request.span {
        Span::Instant => " for an instant: ",
        Span::Commit => " to commit: ",
    })?;
    out.text(match request.blockers.len() {
        0 => "nobody refuses it",
        1 => "refused by transaction ",
        _ => "refused by transactions ",
    })?;
    write_numbers(out, request.blockers.as_slice())?;
    out.put(&[Part::Text("."), Part::Mark(Mark::EndParagraph)])
}
