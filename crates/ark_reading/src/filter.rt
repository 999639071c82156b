//! What stands behind `filter`.

ghost use Rattle.ark_script.specs.Line.{line_of};
ghost use Rattle.ark_script.specs.Words.{parts_of};
ghost use Rattle.ark_forms.specs.Reading.{Gives};
ghost use Rattle.ark_reading.specs.Shape as spec;

use ark_filters::Filter;
use ark_forms::{direction, name, peers, proto, services, six};
use ark_script::Step;

// `A f DIR PROTO PEERS SERVICES`
#[tactic(auto, unfolding(crate::specs::Shape::read_filter))]
#[inline(never)]
pub(super) fn filter(args: &[u8]) -> Option<Step<'_>>
    ensures { Gives line_of result (spec.read_filter (parts_of 32 args.now)) }
{
    let (a, f, way, layer, peers_word, services_word) = six(args, b' ')?;
    let a = name(a)?;
    let f = name(f)?;
    let direction = direction(way)?;
    let proto = proto(layer)?;
    let peers = peers(peers_word, proto)?;
    let services = services(services_word, proto)?;
    Some(Step::Filter(
        a,
        f,
        Filter {
            direction,
            proto,
            peers,
            services,
        },
    ))
}
