use super::*;

#[test]
fn keeps_objects_by_key(rt: HostRuntime) {
    let mut objects = Objects::new(rt.alloc()).expect(&rt, "objects");
    let seven = objects.put(7);
    let eight = objects.insert(8).expect(&rt, "a key");
    assert_eq!(rt; (objects.len(), objects.is_full()), (2, false));
    *objects.at_mut(seven) += 2;
    assert_eq!(rt; objects.at(seven), Some(&9));
    assert_eq!(rt; objects.take(eight), Some(8));
    assert_eq!(rt; objects.at(eight), None);
    assert_eq!(rt; objects.take(eight), None);
    assert_eq!(rt; objects.len(), 1);
}
