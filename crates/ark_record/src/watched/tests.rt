use super::*;

/// It keeps what its last call was given, and counts its calls.
#[derive(Drop)]
struct Noting {
    calls: u32,
    number: u32,
    block: [u8; 512],
    bytes: [u8; 4],
    fails: bool,
}

impl Noting {
    fn turn<E>(&mut self, failure: E) -> Result<(), E>
    where
        E: Drop,
    {
        self.calls = self.calls.wrapping_add(1);
        if self.fails { Err(failure) } else { Ok(()) }
    }

    fn keep(&mut self, bytes: &[u8]) {
        self.bytes = [0; 4];
        for (to, from) in self.bytes.iter_mut().zip(bytes) {
            *to = *from;
        }
    }
}

impl Host for Noting {
    fn attach(&mut self, name: &str) -> Result<u32, AttachFailed> {
        self.keep(name.as_bytes());
        self.turn(AttachFailed)?;
        Ok(9)
    }

    fn make(&mut self, name: &str, blocks: u32) -> Result<u32, AttachFailed> {
        self.keep(name.as_bytes());
        self.number = blocks;
        self.turn(AttachFailed)?;
        Ok(blocks)
    }

    fn read(&mut self, n: u32) -> Result<[u8; 512], DiskFailed> {
        self.number = n;
        self.turn(DiskFailed)?;
        Ok(self.block)
    }

    fn write(&mut self, n: u32, block: &[u8]) -> Result<(), DiskFailed> {
        self.number = n;
        for (to, from) in self.block.iter_mut().zip(block) {
            *to = *from;
        }
        self.turn(DiskFailed)
    }

    fn sync(&mut self) -> Result<(), DiskFailed> {
        self.number = 77;
        self.turn(DiskFailed)
    }

    fn fetch(&mut self, out: &mut [u8]) -> Result<usize, SourceFailed> {
        self.turn(SourceFailed)?;
        match out.first_mut() {
            Some(first) => {
                *first = 5;
                Ok(1)
            }
            None => Ok(0),
        }
    }

    fn put(&mut self, bytes: &[u8]) -> Result<(), SinkFailed> {
        self.keep(bytes);
        self.turn(SinkFailed)
    }
}

fn watched(fails: bool) -> Watched<Noting> {
    Watched::begin(Noting {
        calls: 0,
        number: 0,
        block: [0; 512],
        bytes: [0; 4],
        fails,
    })
}

#[test]
fn makes_each_call_once(rt: HostRuntime) {
    let mut world = watched(false);
    let mut out = [0; 4];
    assert_eq!(rt; world.call_attach("old"), Ok(9));
    assert_eq!(rt;
        (world.host.calls, world.host.bytes, world.size()),
        (1, *b"old\0", 9)
    );
    assert_eq!(rt; world.call_make("new", 130), Ok(()));
    assert_eq!(rt;
        (
            world.host.calls,
            world.host.bytes,
            world.host.number,
            world.size()
        ),
        (2, *b"new\0", 130, 130)
    );
    assert_eq!(rt; world.call_write(5, &[3; 512]), Ok(()));
    assert_eq!(rt;
        (world.host.calls, world.host.number, world.host.block),
        (3, 5, [3; 512])
    );
    assert_eq!(rt; world.call_read(6), Ok([3; 512]));
    assert_eq!(rt; (world.host.calls, world.host.number), (4, 6));
    assert_eq!(rt; world.call_sync(), Ok(()));
    assert_eq!(rt; (world.host.calls, world.host.number), (5, 77));
    assert_eq!(rt; world.call_fetch(&mut out), Ok(1));
    assert_eq!(rt; (world.host.calls, out), (6, [5, 0, 0, 0]));
    assert_eq!(rt; world.call_put(b"ok\n"), Ok(()));
    assert_eq!(rt; (world.host.calls, world.host.bytes), (7, *b"ok\n\0"));
}

#[test]
fn passes_each_failure_on(rt: HostRuntime) {
    let mut world = watched(true);
    let mut out = [0; 4];
    assert_eq!(rt; world.call_attach("old"), Err(AttachFailed));
    assert_eq!(rt; world.call_make("new", 130), Err(AttachFailed));
    assert_eq!(rt; world.call_write(5, &[3; 512]), Err(DiskFailed));
    assert_eq!(rt; world.call_read(6), Err(DiskFailed));
    assert_eq!(rt; world.call_sync(), Err(DiskFailed));
    assert_eq!(rt; world.call_fetch(&mut out), Err(SourceFailed));
    assert_eq!(rt; world.call_put(b"ok\n"), Err(SinkFailed));
    assert_eq!(rt; (world.host.calls, world.size()), (7, 0));
}
