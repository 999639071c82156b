ghost use Rattle.std.specs.Prelude.{◌≤◌, ◌≡◌, OnOk, IfOk, IfErr, Some, None};
ghost use Rattle.ark_host.specs.Inside.{IsInside};
ghost use Rattle.ark_host.specs.Time.{IsSound};
ghost use Rattle.ark_cli.specs.Opening.{FormatsNot, IsFormatted, IsReady, IsReadyFor, OpensNot, new_device, status_for};
ghost use Rattle.ark_cli.specs.Session.{NoneFailed};
ghost use Rattle.ark_cli.specs.Ending.{IsCause};

use ark_answer::ReplyBuffer;
use ark_base::Status;
use ark_host::Host;
use ark_media::Outside;
use ark_script::Said;
use ark_table::{LoadFault, format};
use std::alloc::Global;

/// Makes the device and formats it. The error is `Device`.
pub fn make_new<W: Outside>(blocks: u32, device: &str, world: &mut W) -> Result<(), Status>
    requires low { 130 ≤ blocks }
    requires high { blocks ≤ 1048576 }
    ensures formatted { OnOk result (IsFormatted blocks device.now
        (W.told world.old) (W.told world.new) (W.beside world.old) (W.beside world.new)) }
    ensures failed { IfErr result (λ e. FormatsNot blocks device.now
        (W.told world.old) (W.told world.new) (W.beside world.old) (W.beside world.new) e) }
    ensures unfailed { OnOk result (NoneFailed (W.beside world.old) (W.beside world.new)) }
    ensures cause { IfErr result (λ e. IsCause (W.told world.old) (W.told world.new)
        (W.beside world.old) (W.beside world.new) e) }
{
    match world.make(device, blocks) {
        Err(_) => Err(Status::Device),
        Ok(()) => match format(world) {
            Err(_) => Err(Status::Device),
            Ok(()) => Ok(()),
        },
    }
}

/// Makes the device, formats it, and puts the line that says that it is ready. The error is the status with which the
/// program ends: `Device` where the device could not be made or formatted, `Sink` where its line could not be put.
pub fn open_new<W: Outside>(
    blocks: u32,
    device: &str,
    out: &mut ReplyBuffer,
    world: &mut W,
) -> Result<(), Status>
    requires low { 130 ≤ blocks }
    requires high { blocks ≤ 1048576 }
    ensures ready { OnOk result (IsReady (new_device blocks) device.now
        (W.told world.old) (W.told world.new) (W.beside world.old) (W.beside world.new)) }
    ensures failed { IfErr result (λ e. OpensNot (Some blocks) device.now
        (W.told world.old) (W.told world.new) (W.beside world.old) (W.beside world.new) e) }
    ensures unfailed { OnOk result (NoneFailed (W.beside world.old) (W.beside world.new)) }
    ensures cause { IfErr result (λ e. IsCause (W.told world.old) (W.told world.new)
        (W.beside world.old) (W.beside world.new) e) }
{
    out.reply.say(Said::Ready(blocks, 0), 0);
    out.text.print(&out.reply);
    match make_new(blocks, device, world) {
        Err(status) => Err(status),
        Ok(()) => match world.put(out.text.bytes()) {
            Err(_) => Err(Status::Sink),
            Ok(()) => Ok(()),
        },
    }
}

/// The status of a device whose table can't be loaded.
pub(crate) fn status_of(fault: LoadFault) -> Status
    ensures { result ≡ status_for fault }
{
    match fault {
        LoadFault::DeviceFault => Status::Device,
        LoadFault::Damaged(block) => Status::Damaged(block),
        LoadFault::Memory => Status::Memory,
    }
}

/// Attaches a device that was there, loads its host, and puts the line that says that it is ready. The error is the status with
/// which the program ends: `Device` where it could not be attached or a read failed, `Damaged` with the first block that breaks a
/// rule, `Memory`, or `Sink` where its line could not be put.
pub fn open_attached<W: Outside>(
    alloc: Global,
    device: &str,
    out: &mut ReplyBuffer,
    world: &mut W,
) -> Result<Host, Status>
    ensures ready { IfOk result (λ host. IsReadyFor host device.now
        (W.told world.old) (W.told world.new) (W.beside world.old) (W.beside world.new)) }
    ensures failed { IfErr result (λ e. OpensNot None device.now
        (W.told world.old) (W.told world.new) (W.beside world.old) (W.beside world.new) e) }
    ensures unfailed { OnOk result (NoneFailed (W.beside world.old) (W.beside world.new)) }
    ensures cause { IfErr result (λ e. IsCause (W.told world.old) (W.told world.new)
        (W.beside world.old) (W.beside world.new) e) }
    ensures sound { IfOk result (λ host. IsSound host) }
    ensures inside { IfOk result (λ host. IsInside (W.told world.new).blocks host) }
    ensures none { IfOk result (λ host. host.lines ≡ 0) }
{
    match world.attach(device) {
        Err(_) => Err(Status::Device),
        Ok(()) => match Host::load(alloc, world) {
            Err(fault) => Err(status_of(fault)),
            Ok(host) => {
                out.reply.say(Said::Ready(world.blocks(), host.slots()), 0);
                out.text.print(&out.reply);
                match world.put(out.text.bytes()) {
                    Err(_) => Err(Status::Sink),
                    Ok(()) => Ok(host),
                }
            }
        },
    }
}
