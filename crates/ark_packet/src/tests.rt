use crate::{Bad, Own, read_frame, read_udp, write_udp};

const DATAGRAM: [u8; 44] = [
    2, 0, 0, 0, 0, 1, 2, 0, 0, 0, 0, 2, 8, 0, 0x45, 0, 0, 0x1e, 0, 0, 0, 0, 64, 17, 0x66, 0xcd, 10,
    0, 0, 2, 10, 0, 0, 1, 0, 7, 0x1f, 0x90, 0, 10, 0x63, 0xd7, 0x68, 0x69,
];

const OWN: Own = Own {
    mac: [2, 0, 0, 0, 0, 2],
    ip: [10, 0, 0, 2],
    gateway: [2, 0, 0, 0, 0, 1],
};

#[test]
fn a_datagram_is_read(rt: HostRuntime) {
    let frame = read_frame(&DATAGRAM);
    match read_udp(&frame) {
        Ok(udp) => {
            assert_eq!(rt; udp.from, [10, 0, 0, 2]);
            assert_eq!(rt; udp.to, [10, 0, 0, 1]);
            assert_eq!(rt; udp.from_port, 7);
            assert_eq!(rt; udp.to_port, 8080);
            assert_eq!(rt; udp.payload, b"hi".as_slice());
        }
        Err(_) => assert!(rt; false),
    }
}

#[test]
fn the_same_datagram_is_written(rt: HostRuntime) {
    let mut out = [0xaa; 50];
    let end = write_udp(&mut out, &OWN, 7, [10, 0, 0, 1], 8080, b"hi");
    assert_eq!(rt; end, 44);
    assert_eq!(rt; &out[..44], DATAGRAM.as_slice());
    assert_eq!(rt; &out[44..], [0xaa; 6].as_slice());
}

#[test]
fn a_wrong_header_sum_is_refused(rt: HostRuntime) {
    let mut bytes = DATAGRAM;
    bytes[25] = 0xce;
    let frame = read_frame(&bytes);
    match read_udp(&frame) {
        Ok(_) => assert!(rt; false),
        Err(bad) => assert_eq!(rt; bad, Bad::HeaderSum),
    }
}
