//! What a page has behind the first words of its verdict: what its run is, and a band for each step, with its drawing.
ghost use Rattle.std.specs.Prelude.{IfOk, map, string_bytes};
ghost use Rattle.kr_model.specs.Map.{IsMap};
ghost use Rattle.kr_view_scenes.specs.Scenes.{drawn_steps, step_of};
ghost use Rattle.kr_view_run.specs.declared.frame.TheConstants.{STEP_IDS};
ghost use Rattle.kr_view_run.specs.Page.{AreBands};

use crate::band::{Setting, push_band};
use crate::frame::{Body, STEP_IDS};
use crate::lanes::write_lanes;
use kr_locks::Memory;
use kr_model::Event;
use kr_protocol::Protocol;
use kr_serial::{judge, run_any};
use kr_view_scenes::{
    Drawn, Html, Layout, Mark, Part, Run, Scene, scenes_of, write_commits, write_summary,
};
use std::alloc::{AllocError, Global};

/// What the page of a run has behind the first words of its verdict.
pub fn body_of<P: Protocol>(
    alloc: Global,
    protocol: &P,
    run: &Run<'_>,
    drawn: &Drawn,
) -> Result<Body, Memory>
    ensures { IfOk result (λ body. AreBands STEP_IDS.now (map step_of drawn.now.scenes.items) (string_bytes body.bands)) }
{
    let layout = Layout::of(&drawn.columns, drawn.scenes.as_slice());
    let mut before = Html::new(alloc);
    write_summary(run, drawn.columns.hidden, &mut before)?;
    write_heading(drawn.scenes.is_empty(), run.has_ghosts, &mut before)?;
    let bands = drawn_bands(alloc, protocol, &*run, &*drawn, &layout, STEP_IDS)?;
    let mut behind = Html::new(alloc);
    write_lanes(alloc, run, layout.left, &mut behind)?;
    write_commits(run, &mut behind)?;
    Ok(Body {
        before,
        bands,
        behind,
    })
}

/// What the drawings of steps show by their forms.
const KEY: &str = "A bar is a lock, with its holder and mode, on its key and the gap below it. \
A dashed bar (?) was asked for and refused, by the locks with a thick edge (!). \
A triangle is at the key that the step names. A ring is a key that came, a cross one that went.";

/// The same of ghosts.
const GHOSTS: &str =
    " A dashed tick with the word ghost is a deleted key that stays: a lock on it is a bar too, and it ends \
the gap of the next key. A cross on the tick says that the key became a ghost at this step.";

/// Writes what stands above the bands, or in their place where there are none.
fn write_heading(is_empty: bool, has_ghosts: bool, out: &mut Html) -> Result<(), AllocError> {
    out.put(&[
        Part::Mark(Mark::Heading),
        Part::Text("Steps"),
        Part::Mark(Mark::EndHeading),
    ])?;
    if is_empty {
        return out.put(&[
            Part::Mark(Mark::Paragraph),
            Part::Text("There are none."),
            Part::Mark(Mark::EndParagraph),
        ]);
    }
    out.put(&[Part::Mark(Mark::Note), Part::Text(KEY)])?;
    if has_ghosts {
        out.text(GHOSTS)?;
    }
    out.mark(Mark::EndParagraph)
}

/// A band for each step that is drawn, with ids that begin so.
fn drawn_bands<'a, P: Protocol>(
    alloc: Global,
    protocol: &P,
    run: &'a Run<'_>,
    drawn: &'a Drawn,
    layout: &'a Layout,
    ids: &'a str,
) -> Result<String, Memory>
    ensures { IfOk result (λ bands. AreBands ids.now (map step_of drawn.now.scenes.items) (string_bytes bands)) }
{
    let setting = Setting {
        columns: &drawn.columns,
        layout,
        difference: run.difference(),
        ids,
    };
    bands_of(alloc, protocol, &setting, &drawn.scenes)
}

/// A band for each of these steps.
fn bands_of<P: Protocol>(
    alloc: Global,
    protocol: &P,
    setting: &Setting<'_>,
    scenes: &[Scene],
) -> Result<String, Memory>
    ensures { IfOk result (λ bands. AreBands setting.now.ids.now (map step_of scenes.now) (string_bytes bands)) }
{
    let mut bands = String::new(alloc);
    for scene in scenes {
        push_band(alloc, protocol, setting, scene, &mut bands)?;
    }
    Ok(bands)
}

/// A band for each step that is drawn of the run of these steps under a protocol, from an opening map whose keys rise strictly.
/// Their ids are the numbers of the steps behind `ids`, which is to have no mark of HTML. The only error is that a growth was
/// refused.
pub fn bands_of_run<P: Protocol>(
    alloc: Global,
    protocol: &P,
    opening: &[(u64, u64)],
    steps: &[Event],
    ids: &str,
) -> Result<String, Memory>
    requires { IsMap opening.now }
    ensures { IfOk result (λ bands. AreBands ids.now (drawn_steps (P.table protocol.now) opening.now steps.now) (string_bytes bands)) }
{
    let ran = run_any(alloc, protocol, opening, steps)?;
    let verdict = judge(alloc, &ran)?;
    let run = Run::of_steps(alloc, opening, steps, ran, verdict)?;
    bands_of_judged(alloc, protocol, opening, steps, &run, ids)
}

/// A band for each step that is drawn of the run of these steps, which has been judged.
fn bands_of_judged<P: Protocol>(
    alloc: Global,
    protocol: &P,
    opening: &[(u64, u64)],
    steps: &[Event],
    run: &Run<'_>,
    ids: &str,
) -> Result<String, Memory>
    requires { IsMap opening.now }
    ensures { IfOk result (λ bands. AreBands ids.now (drawn_steps (P.table protocol.now) opening.now steps.now) (string_bytes bands)) }
{
    let drawn = scenes_of(alloc, protocol, opening, steps)?;
    let layout = Layout::of(&drawn.columns, drawn.scenes.as_slice());
    drawn_bands(alloc, protocol, &*run, &drawn, &layout, &*ids)
}
