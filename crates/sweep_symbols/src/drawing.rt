// Pseudo-random symbols: points of every kind, struck carriers, and now and then a symbol that is to be refused.
ghost use Rattle.std.specs.Prelude.{◌≤◌};

use carriers::carrier::{Carrier, Point};
use sweeping::generator::Generator;

// Coordinates where limiting or dropping the fraction is easily done wrong.
const EDGES: [f32; 20] = [
    0.0,
    -0.0,
    0.0625,
    -0.0625,
    0.062499996,
    -0.062499996,
    8.0,
    -8.0,
    7.9999995,
    -7.9999995,
    8.000001,
    f32::INFINITY,
    f32::NEG_INFINITY,
    3.4028235e38,
    -3.4028235e38,
    1e-45,
    -1e-45,
    1.1754944e-38,
    0.06,
    -0.07,
];

// How both coordinates of a point are drawn.
#[derive(Clone, Copy)]
enum Kind {
    Edge,
    Level,
    // a whole number times this power of two, so that the product is exact
    Scaled(f32),
}

impl Kind {
    // The kind of a carrier's point; none where the carrier is struck out.
    fn draw(generator: &mut Generator) -> Option<Kind> {
        match generator.next() / 4096 {
            0..=1 => None,
            2 => Some(Kind::Edge),
            3..=4 => Some(Kind::Level),
            5..=7 => Some(Kind::Scaled(1.0 / 4096.0)),
            8..=11 => Some(Kind::Scaled(1.0 / 2048.0)),
            12..=13 => Some(Kind::Scaled(1.0 / 131072.0)),
            14 => Some(Kind::Scaled(65536.0)),
            _ => Some(Kind::Scaled(1e-45)),
        }
    }

    fn coordinate(self, generator: &mut Generator) -> f32 {
        let drawn = generator.next();
        match self {
            Kind::Edge => EDGES[drawn as usize % EDGES.len()],
            Kind::Level => (2 * (drawn % 8) as i8 - 7) as f32,
            Kind::Scaled(scale) => ((drawn & 0xffff) as i32 - 32768) as f32 * scale,
        }
    }
}

fn carrier(generator: &mut Generator) -> Carrier {
    let Some(kind) = Kind::draw(generator) else {
        return Carrier::Struck;
    };
    let i = kind.coordinate(generator);
    let q = kind.coordinate(generator);
    Carrier::Heard(Point { i, q })
}

// Puts a coordinate that is not a number somewhere.
fn spoil(generator: &mut Generator, symbol: &mut [Carrier; 49]) {
    let place = generator.next() as usize % 48;
    let (i, q) = if generator.next() % 2 == 0 {
        (f32::NAN, 1.0)
    } else {
        (1.0, f32::NAN)
    };
    symbol[place] = Carrier::Heard(Point { i, q });
}

// What is wrong with a symbol, if anything is: whether coordinates are spoilt, and how many carriers are handed over.
#[derive(Clone, Copy)]
struct Flaw {
    is_spoilt: bool,
    count: usize,
    ghost within: { count ≤ 49 },
}

impl Flaw {
    fn draw(generator: &mut Generator) -> Flaw {
        let (is_spoilt, count) = match generator.next() / 4096 {
            0 => (true, 48),
            1 => (false, 47),
            2 => (true, 47),
            3 => (false, 49),
            4 => (true, 49),
            _ => (false, 48),
        };
        Flaw { is_spoilt, count }
    }
}

// One carrier more than a symbol has, the last one struck; the flaw says how many of them count. (An array that is cut, since
// drawing asks for no memory.)
#[derive(Clone, Copy)]
pub struct Symbol {
    carriers: [Carrier; 49],
    flaw: Flaw,
}

impl Symbol {
    pub fn draw(generator: &mut Generator) -> Symbol {
        let flaw = Flaw::draw(generator);
        let mut carriers = [Carrier::Struck; 49];
        for slot in &mut carriers[0..48] {
            *slot = carrier(generator);
        }
        if flaw.is_spoilt {
            spoil(generator, &mut carriers);
            spoil(generator, &mut carriers);
        }
        Symbol { carriers, flaw }
    }

    // The carriers that are handed over.
    pub fn carriers(&self) -> &[Carrier] {
        &self.carriers[0..self.flaw.count]
    }
}
