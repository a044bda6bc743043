//! Plays a script.

ghost use Rattle.std.specs.Prelude.{◌≡◌, ◌≤◌, ◌⊎◌, ℕ, [], true, take, length, map, OnOk, OnErr, IfOk, IfErr, Err};
ghost use Rattle.std.specs.List.{list_all};
ghost use Rattle.fs_model.specs.declared.stop.Stop.{Stop};
ghost use Rattle.fs_model.specs.Spelled.{is_actor, is_setup, is_spelled};
ghost use Rattle.fs_model.specs.Built.{is_built};
ghost use Rattle.outside.specs.Causes.{Rose};
ghost use Rattle.outside.specs.Streams.{Takes};
ghost use Rattle.script_text.specs.LineText.{line_text};
ghost use Rattle.script_text.specs.Commands.{is_command};
ghost use Rattle.cluster_core.specs.Begun.{IsUnopened, MediaFit, tier_counts};
ghost use Rattle.cluster_core.specs.Causes.{IsCaused};
ghost use Rattle.cluster_core.specs.Crashes.{Crashes};
ghost use Rattle.cluster_core.specs.Goes.{Steps};
ghost use Rattle.cluster_core.specs.Media.{MediaStays};
ghost use Rattle.cluster_core.specs.Steady.{IsSteady};
ghost use Rattle.play_run.specs.Play.{Acts, Between, Tells, TellsFront, TellsPartly};

use cluster_core::cluster::Core;
use fs_model::event::Event;
use fs_model::numbers::Actor;
use fs_model::reply::Line;
use fs_model::setup::Setup;
use fs_model::stop::Stop;
use outside::disk::Disk;
use outside::media::Media;
use outside::objects::Objects;
use outside::stream::{Sink, push_all};
use script_text::line::write_line;
use script_text::script::{Command, Script, Verb};
use std::alloc::{AllocError, Global};

/// A copy of an event.
fn copy_of(event: &Event) -> Result<Event, AllocError>
    ensures { IfOk result (λ copy. copy ≡ event.now) }
{
    let copy = event.clone()?;
    Ok(copy)
}

/// The event of a command of one event.
fn event_of(command: &Command) -> Result<Event, AllocError>
    requires { is_command command.now ≡ true }
    ensures verb { IfOk result (λ event. command.now.verb ≡ Verb.One event) }
    ensures built { IfOk result (λ event. is_built event ≡ true) }
    ensures spelled { IfOk result (λ event. is_spelled event ≡ true) }
{
    match &command.verb {
        Verb::One(event) => copy_of(event),
        _ => unreachable!(),
    }
}

/// The line of an event.
fn answer<D: Disk, O: Objects>(
    alloc: Global,
    core: &mut Core<D, O, O::Reader, O::Writer>,
    actor: Actor,
    event: Event,
) -> Line
    requires actor { is_actor actor ≡ true }
    requires built { is_built event ≡ true }
    requires spelled { is_spelled event ≡ true }
    ensures event { result.event ≡ event }
    ensures actor { result.actor ≡ actor }
    ensures steps { Steps D.Disk O.Objects O.Reader.ObjectRead O.Writer.ObjectWrite core.old core.new result.actor result.event result.reply }
    ensures media { MediaStays D.Disk O.Objects core.old core.new }
    ensures cause { IsCaused D.Disk O.Objects O.Reader.ObjectRead O.Writer.ObjectWrite core.old core.new result.actor result.event result.reply }
    ensures crash { Crashes D.Disk core.old core.new result.actor result.event result.reply }
    ensures steady { IsSteady D.Disk O.Objects O.Reader.ObjectRead O.Writer.ObjectWrite core.old → IsSteady D.Disk O.Objects O.Reader.ObjectRead O.Writer.ObjectWrite core.new }
{
    let reply = core.step(alloc, actor, &event);
    Line {
        actor,
        event,
        reply,
    }
}

/// Does one command, and answers its line. After an `Err`, which is want of memory, nothing was done.
fn act<D: Disk, O: Objects>(
    alloc: Global,
    core: &mut Core<D, O, O::Reader, O::Writer>,
    command: &Command,
) -> Result<Line, Stop>
    requires { is_command command.now ≡ true }
    ensures ok { IfOk result (λ line. Acts D.Disk O.Objects O.Reader.ObjectRead O.Writer.ObjectWrite command.now line core.old core.new) }
    ensures err { OnErr result (core.new ≡ core.old) }
    ensures memory { IfErr result (λ why. why ≡ Stop.Memory) }
    ensures media { MediaStays D.Disk O.Objects core.old core.new }
{
    match event_of(command) {
        Ok(event) => Ok(answer(alloc, core, command.actor, event)),
        Err(_) => Err(Stop::Memory),
    }
}

/// The text of a line.
fn text_of(alloc: Global, line: &Line) -> Result<Vec<u8>, AllocError>
    ensures { IfOk result (λ text. text.items ≡ line_text line.now) }
{
    let mut text = Vec::new(alloc);
    write_line(alloc, line, &mut text)?;
    Ok(text)
}

/// Gives a line to the sink, in one piece.
fn tell<S: Sink>(alloc: Global, line: Line, sink: &mut S) -> Result<(), Stop>
    ensures ok { OnOk result (Takes (S.taken sink.old) (S.taken sink.new) (line_text line)) }
    ensures partly { OnErr result ((n : ℕ) × Takes (S.taken sink.old) (S.taken sink.new) (take n (line_text line))) }
    ensures memory { result ≡ Err Stop.Memory → sink.new ≡ sink.old }
    ensures cause { result ≡ Err Stop.WriteFault → Rose (S.faults sink.old) (S.faults sink.new) }
    ensures ends { IfErr result (λ why. (why ≡ Stop.Memory) ⊎ (why ≡ Stop.WriteFault)) }
    ensures later { S.faults sink.old ≤ S.faults sink.new }
{
    let Ok(text) = text_of(alloc, &line) else {
        return Err(Stop::Memory);
    };
    match push_all(sink, &text) {
        Ok(()) => Ok(()),
        Err(_) => Err(Stop::WriteFault),
    }
}

/// Plays a script over a core: does each command in turn, and gives its line to the sink.
///
/// An `Err` is `WriteFault`, where the sink failed, or want of memory. The sink has then taken a front of the
/// lines' text, after want of memory whole lines; what the core did is told up to its last event, or all of it.
fn play_over<D: Disk, O: Objects, S: Sink>(
    alloc: Global,
    core: &mut Core<D, O, O::Reader, O::Writer>,
    script: &Script,
    sink: &mut S,
) -> Result<(), Stop>
    requires { list_all is_command script.now ≡ true }
    ensures ok { OnOk result (Tells D.Disk O.Objects O.Reader.ObjectRead O.Writer.ObjectWrite script.now core.old core.new (S.taken sink.old) (S.taken sink.new)) }
    ensures write { result ≡ Err Stop.WriteFault → TellsPartly D.Disk O.Objects O.Reader.ObjectRead O.Writer.ObjectWrite script.now core.old core.new (S.taken sink.old) (S.taken sink.new) }
    ensures memory { result ≡ Err Stop.Memory → TellsFront D.Disk O.Objects O.Reader.ObjectRead O.Writer.ObjectWrite script.now core.old core.new (S.taken sink.old) (S.taken sink.new) }
    ensures cause { result ≡ Err Stop.WriteFault → Rose (S.faults sink.old) (S.faults sink.new) }
    ensures ends { IfErr result (λ why. (why ≡ Stop.Memory) ⊎ (why ≡ Stop.WriteFault)) }
    ensures later { S.faults sink.old ≤ S.faults sink.new }
    ensures media { MediaStays D.Disk O.Objects core.old core.new }
{
    for command in script.commands() {
        let line = act(alloc, core, command)?;
        tell(alloc, line, sink)?;
    }
    Ok(())
}

/// Plays a script over these media, which are as many as the setup says: opens a cluster over them, does each command
/// in turn, gives its line to the sink, and gives the media back as they are then.
///
/// An `Err` is an end of the opening, `Setup`, `Damaged` or `JournalFault` (see `Core::open_cluster`), where nothing was
/// taken; `WriteFault`, where the sink failed; or want of memory. After the last two the sink has taken a front of the
/// lines' text, after want of memory whole lines; the media given back are those after these lines, or after one event
/// more. Where no cluster was opened, stores and tiers are as they were, and the areas as the opening left them.
pub fn play<D: Disk, O: Objects, S: Sink>(
    alloc: Global,
    setup: &Setup,
    script: &Script,
    media: Media<D, O>,
    sink: &mut S,
) -> (Result<(), Stop>, Media<D, O>)
    requires setup { is_setup setup.now ≡ true }
    requires fit { MediaFit setup.now media }
    requires commands { list_all is_command script.now ≡ true }

    // The sink took the lines of the script's events, in which each fault has its cause, and each crash image of the areas
    // stands for the changes so far, with or without the one in hand. Over fresh areas, and tiers that tell and hold no
    // object, they are a run of the machine, whatever state the play began with, in which each rise is one of real counts;
    // the media given back are those of a core that stands for the state after it.
    ensures ok { OnOk result.0 (Between D.Disk O.Objects O.Reader.ObjectRead O.Writer.ObjectWrite setup.now media result.1 (λ first last. Tells D.Disk O.Objects O.Reader.ObjectRead O.Writer.ObjectWrite script.now first last (S.taken sink.old) (S.taken sink.new))) }

    // At a fault of the sink it took a front of such a text, and its count rose.
    ensures write { result.0 ≡ Err Stop.WriteFault → Between D.Disk O.Objects O.Reader.ObjectRead O.Writer.ObjectWrite setup.now media result.1 (λ first last. TellsPartly D.Disk O.Objects O.Reader.ObjectRead O.Writer.ObjectWrite script.now first last (S.taken sink.old) (S.taken sink.new)) }
    ensures cause { result.0 ≡ Err Stop.WriteFault → Rose (S.faults sink.old) (S.faults sink.new) }

    // Where memory runs out no cluster was opened, or it took the lines of the first commands.
    ensures memory { result.0 ≡ Err Stop.Memory → (IsUnopened D.Disk setup.now media result.1 Stop.Memory × (sink.new ≡ sink.old)) ⊎ Between D.Disk O.Objects O.Reader.ObjectRead O.Writer.ObjectWrite setup.now media result.1 (λ first last. TellsFront D.Disk O.Objects O.Reader.ObjectRead O.Writer.ObjectWrite script.now first last (S.taken sink.old) (S.taken sink.new)) }

    // Any other end is one of the opening: no cluster was opened, for a cause, and nothing was taken.
    ensures unopened { IfErr result.0 (λ why. (why ≡ Stop.WriteFault → ⊥) → (why ≡ Stop.Memory → ⊥) → IsUnopened D.Disk setup.now media result.1 why × (sink.new ≡ sink.old)) }

    ensures never { result.0 ≡ Err Stop.OpenFault → ⊥ }
    ensures later { S.faults sink.old ≤ S.faults sink.new }
    ensures stores { length result.1.stores.items ≡ length media.stores.items }
    ensures tiers { tier_counts result.1.tiers.items ≡ tier_counts media.tiers.items }
{
    match Core::open_cluster(alloc, setup, media) {
        Ok(mut core) => {
            let played = play_over(alloc, &mut core, script, sink);
            (played, core.close())
        }
        Err((stop, back)) => (Err(stop), back),
    }
}
