ghost use Rattle.std.specs.Prelude.{◌≡◌, false, [], option_map};
ghost use Rattle.ark_media.specs.Calls.{Told};
ghost use Rattle.ark_script.specs.Reply.{bytes_shown};
ghost use Rattle.ark_script.specs.Text.{IsSaid, wants_memory};
ghost use Rattle.ark_machine.specs.Polls as polls;
ghost use Rattle.ark_held.specs.Does.{Acts};
ghost use Rattle.ark_logs.specs.Polling.{acked_by, chain_on};

use crate::finding::find_open;
use ark_base::{Kind, Label, Refusal};
use ark_held::App;
use ark_log::{Chain, Command, Polled};
use ark_own::say;
use ark_script::{Reply, Said};

// The log or queue that is open on the card of a key.
fn chain_at(app: &App, key: u32) -> Option<&Chain>
    ensures found { option_map (λ p. p.now) result ≡ chain_on app.now.devices.cards key }
{
    app.devices.cards.at(key)?.log.as_ref()
}

// What is said of an acknowledged command.
fn acked(kind: Kind, command: Command) -> Said
    ensures { result ≡ acked_by kind command }
{
    match command {
        Command::Append(n) => match kind {
            Kind::Queue => Said::AckedPush(n),
            _ => Said::AckedAppend(n),
        },
        Command::Trim(n) => Said::AckedTrim(n),
        Command::Pop(n) => Said::AckedPop(n),
    }
}

/// The word `poll`: brings the oldest command of a log or queue one step on. Of a pop that is
/// acknowledged it shows the payload.
pub fn poll(app: &mut App, label: &Label, out: &mut Reply)
    ensures acts { (t : Told) → Acts t app.old app.new (λ m g. polls.poll m label.now g) []
        out.new.said (bytes_shown out.new) }
    ensures areas { app.new.areas ≡ app.old.areas }
    ensures said { IsSaid out.new.said }
    ensures enough { wants_memory out.new.said ≡ false }
{
    let at = match find_open(app, label) {
        Err(refusal) => {
            say(out, Said::Refused(refusal));
            return;
        }
        Ok(at) => at,
    };
    // An open log has its card.
    let Some(chain) = chain_at(app, at.key) else {
        say(out, Said::Refused(Refusal::WrongKind));
        return;
    };
    if chain.failed() {
        say(out, Said::Refused(Refusal::LogFailed));
        return;
    }
    let kind = chain.kind();
    match app.poll(at.key, out.room()) {
        Polled::Nothing => say(out, Said::Nothing),
        Polled::Posted => say(out, Said::Posted),
        Polled::Acked(command, len) => out.say(acked(kind, command), len),
        Polled::Fault(outcome) => say(out, Said::Failed(outcome)),
    }
}
