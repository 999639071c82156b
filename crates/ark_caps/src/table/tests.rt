use super::CapTable;
use crate::capability::{CapKind, Capability};
use ark_base::Name;

#[test]
fn each_call_once(rt: HostRuntime) {
    let buffer = Capability {
        kind: CapKind::Buf,
        grant: 7,
        key: 3,
    };
    let label = Name::read(b"a").expect(&rt, "a label");
    let mut table = CapTable::new(rt.alloc()).expect(&rt, "memory");

    assert_eq!(rt; table.add(label, buffer), Ok(()));
    assert_eq!(rt; table.get(&label), Some(buffer));
    assert!(rt; table.at(0).is_some());
    assert_eq!(rt; table.count(CapKind::Buf), 1);
    assert_eq!(rt; table.remove(&label), Some(buffer));
    assert_eq!(rt; table.len(), 0);
}
