use super::Spans;
use ark_base::Span;

/// Spans are a list of blocks.
#[test]
fn lists_blocks(rt: HostRuntime) {
    let runs = [Span { start: 200, len: 2 }, Span { start: 150, len: 3 }];
    let spans = Spans::of(&runs).expect(&rt, "spans");
    assert_eq!(rt; (spans.runs(), spans.blocks()), (2, 5));
    assert_eq!(rt; spans.run(1), Some(Span { start: 150, len: 3 }));
    assert_eq!(rt; spans.run(2), None);
    assert_eq!(rt;
        (spans.translate(1), spans.translate(2)),
        (Some(201), Some(150))
    );
    assert_eq!(rt; spans.translate(5), None);
    assert_eq!(rt; (spans.holds(152), spans.holds(153)), (true, false));
}
