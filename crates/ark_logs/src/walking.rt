ghost use Rattle.std.specs.Prelude.{◌≡◌, ◌≤◌, ◌<◌, ◌+◌, false, [], All, length, option_map, IfOk};
ghost use Rattle.ark_media.specs.Calls.{GoesBy};
ghost use Rattle.ark_script.specs.Reply.{bytes_shown};
ghost use Rattle.ark_script.specs.Text.{IsSaid, wants_memory};
ghost use Rattle.ark_machine.specs.Logs as logs;
ghost use Rattle.ark_held.specs.Does.{Acts};
ghost use Rattle.ark_held.specs.Inside.{AreasInside};
ghost use Rattle.ark_logs.specs.Walking.{IsWalk, log_with_area};

use crate::finding::{OpenAt, find_open};
use ark_base::{Label, Refusal};
use ark_extents::{Spans, VsaView};
use ark_held::{App, Area};
use ark_log::{Chain, ReadAt};
use ark_media::Disk;
use ark_own::say;
use ark_script::{Reply, Said};

// A log that is open, with its area.
fn log_with_area<'a>(app: &'a App, at: &OpenAt) -> Option<(&'a Chain, &'a Area)>
    ensures found { option_map (λ p. (p.0.now, p.1.now)) result
        ≡ log_with_area app.now.devices.cards app.now.areas at.now }
{
    let card = app.devices.cards.at(at.key)?;
    let chain = card.log.as_ref()?;
    let area = app.areas.get(at.grant)?;
    if chain.room() + 1 == area.spans.blocks() {
        Some((chain, area))
    } else {
        None
    }
}

// Reads an entry of the log in these blocks, and puts its payload to the front of a reply's room. Gives the payload's length.
#[tactic(auto, using(ark_script::proofs::Showing::fitted_same))]
fn read_entry<D: Disk>(
    chain: &Chain,
    spans: &Spans,
    n: u64,
    disk: &mut D,
    out: &mut Reply,
) -> Result<u32, ReadAt>
    requires inside { All (λ n. n < (D.told disk.old).blocks) spans.now }
    requires area { chain.now.room + 1 ≡ length spans.now }
    ensures went { GoesBy D.goes disk.old disk.new
        (IsWalk (D.told disk.new) chain.now spans.now n result out.new.buffer) }
    ensures short { IfOk result (λ len. len ≤ 32768) }
{
    let mut view = VsaView::new(spans, disk);
    chain.read_at(&mut view, n, out.room())
}

/// The word `walk`.
pub fn walk<D: Disk>(app: &App, label: &Label, n: u64, disk: &mut D, out: &mut Reply)
    requires inside { AreasInside (D.told disk.old).blocks app.now.areas }
    ensures acts { GoesBy D.goes disk.old disk.new
        (λ es. Acts (D.told disk.new) app.now app.now (λ m g. logs.walk m label.now n g) es
        out.new.said (bytes_shown out.new)) }
    ensures said { IsSaid out.new.said }
    ensures enough { wants_memory out.new.said ≡ false }
{
    let at = match find_open(app, label) {
        Err(refusal) => {
            say(out, Said::Refused(refusal));
            return;
        }
        Ok(at) => at,
    };
    // An open log has its card, and its area, which has one block more than its ring.
    let Some((chain, area)) = log_with_area(app, &at) else {
        say(out, Said::Refused(Refusal::WrongKind));
        return;
    };
    if chain.failed() {
        say(out, Said::Refused(Refusal::LogFailed));
        return;
    }
    match read_entry(chain, &area.spans, n, disk, out) {
        Ok(len) => out.say(Said::Bytes, len),
        Err(ReadAt::NoEntry) => say(out, Said::Refused(Refusal::NoEntry)),
        Err(ReadAt::DeviceFault) => say(out, Said::Refused(Refusal::DeviceFault)),
    }
}
