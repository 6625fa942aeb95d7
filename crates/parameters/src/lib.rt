// The parameters that the sensors give: their quantities, their units, and the conversion to a unit.

#![tactic(auto)]

ghost use Rattle.std.specs.Prelude.{◌≡◌, false};
ghost use Rattle.std.specs.Option.{option_map_or};
ghost use Rattle.parameters.specs.Parameters.{count_of, quantity_of, quantity_by, id_of, default_units, units_allowed, available_units, level_allowed, converted};

// The number of a sensor's parameters.
#[tactic(auto, unfolding(crate::specs::Parameters::count_of))]
pub fn count(sensor: u16) -> u16
    ensures { result ≡ count_of sensor }
{
    match sensor {
        1 => 3,
        2 => 1,
        3 => 2,
        4 => 1,
        _ => 0,
    }
}

// What a parameter measures.
#[derive(Clone, Copy, Debug, PartialEq, Eq)]
pub enum Quantity {
    Temperature,
    Conductivity,
    Resistivity,
    Oxygen,
    Pressure,
    Level,
    Chlorophyll,
}

// The id that a register shows, the level's as when fresh.
impl From<Quantity> for u16 {
    ghost from_gives = { λ quantity id. id ≡ id_of quantity };

    fn from(quantity: Quantity) -> u16 {
        match quantity {
            Quantity::Temperature => 1,
            Quantity::Conductivity => 9,
            Quantity::Resistivity => 11,
            Quantity::Oxygen => 20,
            Quantity::Pressure => 2,
            Quantity::Level => 3,
            Quantity::Chlorophyll => 51,
        }
    }
}

impl Quantity {
    // The quantity of parameter k, where the sensor has such a parameter.
    #[tactic(auto, unfolding(crate::specs::Parameters::quantity_of))]
    pub fn of(sensor: u16, k: u16) -> Option<Self>
        ensures { result ≡ quantity_of sensor k }
    {
        match (sensor, k) {
            (1, 1) => Some(Quantity::Temperature),
            (1, 2) => Some(Quantity::Conductivity),
            (1, 3) => Some(Quantity::Resistivity),
            (2, 1) => Some(Quantity::Oxygen),
            (3, 1) => Some(Quantity::Pressure),
            (3, 2) => Some(Quantity::Level),
            (4, 1) => Some(Quantity::Chlorophyll),
            _ => None,
        }
    }

    // The quantity that an id names.
    #[tactic(auto, unfolding(crate::specs::Parameters::quantity_by))]
    pub fn by_id(id: u16) -> Option<Self>
        ensures { result ≡ quantity_by id }
    {
        match id {
            1 => Some(Quantity::Temperature),
            9 => Some(Quantity::Conductivity),
            11 => Some(Quantity::Resistivity),
            20 => Some(Quantity::Oxygen),
            2 => Some(Quantity::Pressure),
            3 => Some(Quantity::Level),
            51 => Some(Quantity::Chlorophyll),
            _ => None,
        }
    }

    // The units when fresh.
    pub fn default_units(self) -> u16
        ensures { result ≡ default_units self }
    {
        match self {
            Quantity::Temperature => 1,
            Quantity::Conductivity => 65,
            Quantity::Resistivity => 81,
            Quantity::Oxygen => 117,
            Quantity::Pressure => 17,
            Quantity::Level => 35,
            Quantity::Chlorophyll => 118,
        }
    }

    // Whether the table lists these units.
    pub fn allows(self, units: u16) -> bool
        ensures { result ≡ units_allowed self units }
    {
        match self {
            Quantity::Temperature => (units == 1) | (units == 2),
            Quantity::Conductivity => units == 65,
            Quantity::Resistivity => units == 81,
            Quantity::Oxygen => units == 117,
            Quantity::Pressure => (units == 17) | ((19 <= units) & (units <= 22)),
            Quantity::Level => units == 35,
            Quantity::Chlorophyll => units == 118,
        }
    }

    // The word that lists the units.
    pub fn available_units(self) -> u16
        ensures { result ≡ available_units self }
    {
        match self {
            Quantity::Temperature => 0x0003,
            Quantity::Conductivity => 1,
            Quantity::Resistivity => 1,
            Quantity::Oxygen => 0x0010,
            Quantity::Pressure => 0x003D,
            Quantity::Level => 0x0004,
            Quantity::Chlorophyll => 0x0020,
        }
    }
}

// The units that a parameter of this id has when fresh; 0 for an id that names no quantity.
pub fn default_units(id: u16) -> u16
    ensures { result ≡ option_map_or default_units (quantity_by id) 0 }
{
    Quantity::by_id(id).map_or(0, |quantity| quantity.default_units())
}

// Whether the table lists these units for the id.
pub fn units_allowed(id: u16, units: u16) -> bool
    ensures { result ≡ option_map_or (λ quantity. units_allowed quantity units) (quantity_by id) false }
{
    Quantity::by_id(id).is_some_and(|quantity| quantity.allows(units))
}

// The word that lists the units of the id.
pub fn available_units(id: u16) -> u16
    ensures { result ≡ option_map_or available_units (quantity_by id) 0 }
{
    Quantity::by_id(id).map_or(0, |quantity| quantity.available_units())
}

// The ids that the level may have. They are numbers here, as `Parameters` of `sensors` has them for programs in C.
#[tactic(auto, unfolding(crate::specs::Parameters::level_allowed))]
pub fn level_allowed(id: u16) -> bool
    ensures { result ≡ level_allowed id }
{
    (3 <= id) & (id <= 5)
}

// A value in the units asked for. Units are numbers here, as `Parameter` of `sensors` has them for programs in C.
#[tactic(auto, unfolding(crate::specs::Parameters::converted))]
pub fn convert(units: u16, x: f32) -> f32
    ensures { result ≡ converted units x }
{
    match units {
        2 => x * 1.8 + 32.0,
        19 => x * 6.894757,
        20 => x * 0.06894757,
        21 => x * 68.94757,
        22 => x * 51.71493,
        _ => x,
    }
}
