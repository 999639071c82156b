use super::*;

#[test]
fn gives_zero_bytes(rt: HostRuntime) {
    let mut region = Region::new(rt.alloc(), 4).expect(&rt, "a region");
    let buf = region.take(513).expect(&rt, "a buffer");
    assert_eq!(rt; (buf.start(), buf.len()), (0, 513));
    region.set_block(&buf, 1, &[7; 512]);
    region.copy(&buf, &buf, 2);
    assert!(rt; region.bytes(&buf).starts_with(&[0, 7]));
    region.bytes_mut(&buf).fill(9);
    assert_eq!(rt; region.block(&buf, 0).first(), Some(&9));
    let first = buf.place();
    region.give(buf);
    let second = Place { at: 1024, len: 2 };
    let (x, y) = two_of(
        region.whole_mut(),
        Place {
            at: first.at,
            len: 2,
        },
        second,
    );
    y.copy_from_slice(x);
    assert_eq!(rt; y.last(), Some(&9));
    assert!(rt; region.take(2049).is_none());
}

#[test]
fn lends_two_buffers(rt: HostRuntime) {
    let mut region = Region::new(rt.alloc(), 4).expect(&rt, "a region");
    let a = region.take(513).expect(&rt, "a buffer");
    let b = region.take(2).expect(&rt, "a buffer");
    let (x, y) = region.two(&a, &b);
    assert_eq!(rt; (x.first(), y.first()), (Some(&0), Some(&0)));
}
