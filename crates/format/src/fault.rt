// What every fault tells.
ghost use Rattle.std.specs.Prelude.{◌≡◌};
ghost use Rattle.format.specs.declared.fault.Fault.{Fault};
ghost use Rattle.format.specs.Faults.{fault};

// What found a fault.
#[derive(Clone, Copy, PartialEq, Eq, Debug)]
pub enum Layer {
    Number,
    Codec,
    Block,
    Table,
    Call,
}

// A fault by its layer, its number, its place, and in a merge the run.
#[derive(Clone, Copy, PartialEq, Eq, Debug)]
pub struct Fault {
    pub layer: Layer,
    pub number: u8,
    pub place: u64,
    pub run: Option<usize>,
}

impl Fault {
    // A fault outside a merge.
    pub fn new(layer: Layer, number: u8, place: u64) -> Fault
        ensures { result ≡ fault layer number place }
    {
        Fault {
            layer,
            number,
            place,
            run: None,
        }
    }
}

// An error of any layer, which tells itself as a fault.
pub trait Tells {
    ghost told: { Self → Fault };

    // The fault, whole.
    fn tell(&self) -> Fault
        ensures { result ≡ told self.now };

    // Its number.
    fn number(&self) -> u8
        ensures { result ≡ (told self.now).number }
    {
        self.tell().number
    }

    // Where it is: a byte of the area, or an ordinal, as its number says.
    fn place(&self) -> u64
        ensures { result ≡ (told self.now).place }
    {
        self.tell().place
    }
}
