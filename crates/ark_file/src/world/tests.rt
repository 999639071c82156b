ghost use Rattle.std.specs.Prelude.{◌<◌, IfOk};

use super::*;
use std::test::Fail;
use std::{env, fs, process};

/// The name of a file for temporary use that no other process takes.
fn temporary(rt: &HostRuntime, name: &str) -> Result<String, Fail> {
    let folder = env::temp_dir(rt)?;
    let folder = folder.as_str();
    Ok(format!(in rt.alloc(); "{folder}/arrakis-{}-{name}", process::id(rt.process()))?)
}

#[test]
fn keeps_blocks_in_a_file(rt: HostRuntime) -> Result<(), Fail> {
    let name = temporary(&rt, "kept")?;
    let name = name.as_str();

    let mut host = FileHost::new(rt);
    assert_eq!(rt; host.make(name, 130), Ok(130));
    assert_eq!(rt; fs::metadata(&rt, name)?.len(), 66_560);
    assert_eq!(rt; host.write(129, &[7; 512]), Ok(()));
    assert_eq!(rt; host.write(3, &[9; 512]), Ok(()));
    assert_eq!(rt; host.sync(), Ok(()));
    assert_eq!(rt; host.read(129), Ok([7; 512]));
    let bytes = fs::read(&rt, name)?;
    assert_eq!(rt; bytes.len(), 66_560);
    for (i, byte) in bytes.iter().enumerate() {
        let want = match i / 512 {
            3 => 9,
            129 => 7,
            _ => 0,
        };
        assert_eq!(rt; *byte, want, "at {i}");
    }
    drop(host);
    let mut host = FileHost::new(rt);
    assert_eq!(rt; host.make(name, 131), Ok(131));
    assert_eq!(rt; host.read(129), Ok([0; 512]));
    assert_eq!(rt; fs::metadata(&rt, name)?.len(), 67_072);
    fs::remove_file(&rt, name)?;
    Ok(())
}

#[test]
fn attaches_the_whole_blocks_that_are_there(rt: HostRuntime) -> Result<(), Fail> {
    let name = temporary(&rt, "there")?;
    let name = name.as_str();
    let mut bytes = [0; 1600];
    bytes[512] = 5;
    bytes[1023] = 6;
    bytes[1024] = 7;
    fs::write(&rt, name, bytes)?;

    let mut host = FileHost::new(rt);
    assert_eq!(rt; host.attach(name), Ok(3));
    let mut want = [0; 512];
    assert_eq!(rt; host.read(0), Ok(want));
    want[0] = 5;
    want[511] = 6;
    assert_eq!(rt; host.read(1), Ok(want));
    assert_eq!(rt; host.read(3), Err(DiskFailed));
    fs::remove_file(&rt, name)?;
    Ok(())
}

#[test]
fn stays_attached_where_no_other_device_can_be(rt: HostRuntime) -> Result<(), Fail> {
    let name = temporary(&rt, "stays")?;
    let missing = temporary(&rt, "missing")?;
    let folder = env::temp_dir(&rt)?;

    let mut host = FileHost::new(rt);
    assert_eq!(rt; host.make(name.as_str(), 130), Ok(130));
    assert_eq!(rt; host.write(0, &[7; 512]), Ok(()));
    for other in [
        missing.as_str(),
        folder.as_str(),
        "/dev/null",
        "/dev/full",
        "",
        "\0",
    ] {
        assert_eq!(rt; host.attach(other), Err(AttachFailed), "{other:?}");
    }
    for other in [folder.as_str(), "/dev/null", "/dev/full", "", "\0"] {
        assert_eq!(rt; host.make(other, 200), Err(AttachFailed), "{other:?}");
    }
    assert_eq!(rt; host.read(0), Ok([7; 512]));
    fs::remove_file(&rt, name.as_str())?;
    Ok(())
}

#[test]
fn fails_to_read_past_the_end_of_the_file(rt: HostRuntime) -> Result<(), Fail> {
    let name = temporary(&rt, "short")?;
    let name = name.as_str();

    let mut host = FileHost::new(rt);
    assert_eq!(rt; host.make(name, 130), Ok(130));
    OpenOptions::new()
        .write(true)
        .open(&rt, name)?
        .set_len(66_559)?;
    assert_eq!(rt; host.read(129), Err(DiskFailed));
    assert_eq!(rt; host.read(128), Ok([0; 512]));
    drop(host);
    let mut host = FileHost::new(rt);
    assert_eq!(rt; host.attach(name), Ok(129));
    fs::remove_file(&rt, name)?;
    Ok(())
}

// A device in use is neither attached nor made anew, by its own host or by another, and keeps what it holds. It is free again
// after its host has ended.
#[test]
fn refuses_a_device_in_use(rt: HostRuntime) -> Result<(), Fail> {
    let name = temporary(&rt, "used")?;
    let name = name.as_str();

    let mut host = FileHost::new(rt);
    let mut other = FileHost::new(rt);
    assert_eq!(rt; host.make(name, 130), Ok(130));
    assert_eq!(rt; host.write(5, &[7; 512]), Ok(()));
    assert_eq!(rt; host.attach(name), Err(AttachFailed));
    assert_eq!(rt; host.make(name, 130), Err(AttachFailed));
    assert_eq!(rt; other.attach(name), Err(AttachFailed));
    assert_eq!(rt; other.make(name, 200), Err(AttachFailed));
    assert_eq!(rt; fs::metadata(&rt, name)?.len(), 66_560);
    assert_eq!(rt; host.read(5), Ok([7; 512]));
    drop(host);
    assert_eq!(rt; other.attach(name), Ok(130));
    assert_eq!(rt; other.read(5), Ok([7; 512]));
    fs::remove_file(&rt, name)?;
    Ok(())
}

// The folder of a file is what stands before its last slash.
#[test]
fn syncs_the_folder_of_a_file(rt: HostRuntime) -> Result<(), Fail> {
    let name = temporary(&rt, "no folder/device")?;
    assert!(rt; sync_folder(&rt, "device").is_ok());
    assert!(rt; sync_folder(&rt, "/device").is_ok());
    assert!(rt; sync_folder(&rt, "/usr/device").is_ok());
    assert!(rt; sync_folder(&rt, name.as_str()).is_err());
    Ok(())
}

#[test]
fn fails_where_no_device_is_attached(rt: HostRuntime) {
    let mut host = FileHost::new(rt);
    assert_eq!(rt; host.read(0), Err(DiskFailed));
    assert_eq!(rt; host.write(0, &[0; 512]), Err(DiskFailed));
    assert_eq!(rt; host.sync(), Err(DiskFailed));
}

#[test]
fn passes_errors_of_the_system_on(rt: HostRuntime) -> Result<(), Fail> {
    let mut full = OpenOptions::new().write(true).open(&rt, "/dev/full")?;
    assert_eq!(rt; write_block(Some(&full), 0, &[7; 512]), Err(DiskFailed));
    assert_eq!(rt; sync_file(Some(&full)), Err(DiskFailed));
    assert_eq!(rt; write_whole(&mut full, b"ok\n"), Err(SinkFailed));

    let mut only_read = OpenOptions::new().read(true).open(&rt, "/dev/null")?;
    assert_eq!(rt;
        write_block(Some(&only_read), 0, &[7; 512]),
        Err(DiskFailed)
    );
    assert_eq!(rt; write_whole(&mut only_read, b"ok\n"), Err(SinkFailed));

    let mut folder = OpenOptions::new().read(true).open(&rt, "/")?;
    let mut out = [1; 4];
    assert_eq!(rt; read_block(Some(&folder), 0), Err(DiskFailed));
    assert_eq!(rt; read_some(&mut folder, &mut out), Err(SourceFailed));
    Ok(())
}

/// It takes and gives one byte at a time, after a signal; from the number `end` on it fails.
#[derive(Drop)]
struct Slow {
    bytes: [u8; 4],
    at: usize,
    end: usize,
    signalled: bool,
}

impl Slow {
    fn turn(&mut self) -> io::Result<usize>
        ensures { IfOk result (λ at. at < 4) }
    {
        if !self.signalled {
            self.signalled = true;
            return Err(io::Error::from(ErrorKind::Interrupted));
        }
        if self.at >= self.end || self.at >= 4 {
            return Err(io::Error::from(ErrorKind::Other));
        }
        let at = self.at;
        self.at += 1;
        self.signalled = false;
        Ok(at)
    }
}

impl Write for Slow {
    fn write(&mut self, buf: &[u8]) -> io::Result<usize> {
        if buf.is_empty() {
            return Ok(0);
        }
        let at = self.turn()?;
        self.bytes[at] = buf[0];
        Ok(1)
    }

    fn flush(&mut self) -> io::Result<()> {
        Ok(())
    }
}

impl Read for Slow {
    fn read(&mut self, buf: &mut [u8]) -> io::Result<usize> {
        if buf.is_empty() {
            return Ok(0);
        }
        let at = self.turn()?;
        buf[0] = self.bytes[at];
        Ok(1)
    }
}

#[test]
fn writes_all_and_goes_on_after_a_signal(rt: HostRuntime) {
    let mut output = Slow {
        bytes: [0; 4],
        at: 0,
        end: 3,
        signalled: false,
    };
    assert_eq!(rt; write_whole(&mut output, b"ok\n"), Ok(()));
    assert_eq!(rt; output.bytes, *b"ok\n\0");
    let mut output = Slow {
        bytes: [0; 4],
        at: 0,
        end: 2,
        signalled: false,
    };
    assert_eq!(rt; write_whole(&mut output, b"ok\n"), Err(SinkFailed));
    assert_eq!(rt; output.bytes, *b"ok\0\0");

    let mut input = Slow {
        bytes: *b"app\n",
        at: 0,
        end: 1,
        signalled: false,
    };
    let mut out = [0; 4];
    assert_eq!(rt; read_some(&mut input, &mut out), Ok(1));
    assert_eq!(rt; out, *b"a\0\0\0");
    assert_eq!(rt; read_some(&mut input, &mut out), Err(SourceFailed));
}
