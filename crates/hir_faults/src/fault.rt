// The numbered faults, and the envelope that carries one up through the layers.
ghost use Rattle.std.specs.Prelude.{◌≡◌, ℕ};
ghost use Rattle.hir_faults.specs.Faults.{record_number, function_number, pass_number, fault_number, layer_number, fault_source, enveloped, around};
ghost use Rattle.hir_faults.specs.declared.fault.Layer.TheVariants as layer;
ghost use Rattle.hir_faults.specs.declared.fault.Fault.TheVariants as fault;

// The layer that gives a fault.
#[derive(Clone, Copy, Debug, PartialEq, Eq)]
pub enum Layer {
    Record,
    Function,
    Pass,
}

// Where in a function a fault was met. A block's terminal comes as one more step behind its instructions.
#[derive(Clone, Copy, Debug, PartialEq, Eq)]
pub struct Place {
    pub block: u32,
    pub step: u32,
}

// Why bytes are no record.
#[derive(Clone, Copy, Debug, PartialEq, Eq)]
pub enum RecordFault {
    TooShort,
    NoMark,
    UnknownVersion,
    OverLimit,
    WrongLength,
}

// Why a function is no input for a pass.
#[derive(Clone, Copy, Debug, PartialEq, Eq)]
pub enum Reason {
    OverLimit,
    NoBlock,
    OutOfRange,
    NotInTable,
    OutOfOrder,
    BadScopeRange,
}

// A function that is no input for a pass, with the kind number of its source.
#[derive(Clone, Copy, Debug, PartialEq, Eq)]
pub struct FunctionFault {
    // A number, as `Source::KIND` is, since later crates add types of source.
    pub source: u32,
    pub reason: Reason,
}

// Why a pass, or the loading of rows, could not go on.
#[derive(Clone, Copy, Debug, PartialEq, Eq)]
pub enum PassFault {
    TooLittleMemory,
    SharedFallthrough,
    NoFallthrough,
    NoRangeId,
}

// A fault with its layer and its place, if it has one.
#[derive(Clone, Copy, Debug, PartialEq, Eq)]
pub struct Envelope<F> {
    pub layer: Layer,
    pub place: Option<Place>,
    pub fault: F,
}

// A fault of any layer.
#[derive(Clone, Copy, Debug, PartialEq, Eq)]
pub enum Fault {
    Record(RecordFault),
    Function(FunctionFault),
    Pass(PassFault),
}

// The faults of one layer.
pub trait LayerFault: Copy {
    ghost use Rattle.hir_faults.specs.declared.fault.Layer.{Layer};
    ghost use Rattle.hir_faults.specs.declared.fault.Fault.{Fault};

    const LAYER: Layer;

    ghost LAYER: { Layer };

    ghost any: { Self → Fault };

    ghost number: { Self → ℕ };

    // The same fault as one of any layer. No `From`: the `From` of envelopes and the contracts name what it becomes.
    fn any(self) -> Fault
        ensures { result ≡ any self };

    // Its number in the table of faults. No `From`: contracts name the number, where `From` has only a relation.
    fn number(self) -> u32
        ensures { result ≡ number self };
}

impl<F: LayerFault> Envelope<F> {
    // The envelope in which its layer gives the fault.
    pub fn new(place: Option<Place>, fault: F) -> Envelope<F>
        ensures { result ≡ enveloped F.LAYER place fault }
    {
        Envelope {
            layer: F::LAYER,
            place,
            fault,
        }
    }
}

impl<F: LayerFault> From<Envelope<F>> for Envelope<Fault> {
    ghost from_gives = { λ x y. y ≡ around F.any x };

    fn from(e: Envelope<F>) -> Envelope<Fault> {
        Envelope {
            layer: e.layer,
            place: e.place,
            fault: e.fault.any(),
        }
    }
}

impl Layer {
    // Its number in the table of layers, by a name and not by `From`: contracts name the number
    // (`layer_number`), where `From` has only a relation.
    pub fn number(self) -> u32
        ensures { result ≡ layer_number self }
    {
        match self {
            Layer::Record => 1,
            Layer::Function => 2,
            Layer::Pass => 3,
        }
    }
}

impl LayerFault for RecordFault {
    const LAYER: Layer = Layer::Record;

    ghost LAYER = { layer.Record };

    ghost any = { fault.Record };

    ghost number = { record_number };

    fn any(self) -> Fault {
        Fault::Record(self)
    }

    fn number(self) -> u32 {
        match self {
            RecordFault::TooShort => 1,
            RecordFault::NoMark => 2,
            RecordFault::UnknownVersion => 3,
            RecordFault::OverLimit => 4,
            RecordFault::WrongLength => 5,
        }
    }
}

impl LayerFault for FunctionFault {
    const LAYER: Layer = Layer::Function;

    ghost LAYER = { layer.Function };

    ghost any = { fault.Function };

    ghost number = { function_number };

    fn any(self) -> Fault {
        Fault::Function(self)
    }

    fn number(self) -> u32 {
        match self.reason {
            Reason::OverLimit => 4,
            Reason::NoBlock => 7,
            Reason::OutOfRange => 8,
            Reason::NotInTable => 9,
            Reason::OutOfOrder => 10,
            Reason::BadScopeRange => 11,
        }
    }
}

impl LayerFault for PassFault {
    const LAYER: Layer = Layer::Pass;

    ghost LAYER = { layer.Pass };

    ghost any = { fault.Pass };

    ghost number = { pass_number };

    fn any(self) -> Fault {
        Fault::Pass(self)
    }

    fn number(self) -> u32 {
        match self {
            PassFault::TooLittleMemory => 6,
            PassFault::SharedFallthrough => 12,
            PassFault::NoFallthrough => 13,
            PassFault::NoRangeId => 14,
        }
    }
}

impl Fault {
    // Its number in the table of faults, by a name as above.
    pub fn number(self) -> u32
        ensures { result ≡ fault_number self }
    {
        match self {
            Fault::Record(f) => f.number(),
            Fault::Function(f) => f.number(),
            Fault::Pass(f) => f.number(),
        }
    }

    // The kind number of the source, in a function fault.
    pub fn source_kind(self) -> Option<u32>
        ensures { result ≡ fault_source self }
    {
        match self {
            Fault::Record(_) | Fault::Pass(_) => None,
            Fault::Function(fault) => Some(fault.source),
        }
    }
}
