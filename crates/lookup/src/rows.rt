// The table of fields, one row for each: first the device's, then the sensors', then those of parameters 1, 2 and 3. An owner's fields stand in
// the order of their offsets.
ghost use Rattle.std.specs.Prelude.{◌≡◌};
ghost use Rattle.fields.specs.Fields.{fields};

use fields::{Access, Field};

// Owners: the device, and sensors by their number.
const DEVICE: u8 = 1;

const SENSORS: u8 = 30;

const SENSOR_1: u8 = 2;

const SENSOR_3: u8 = 8;

const SENSORS_1_3: u8 = 10;

const SENSORS_1_2_4: u8 = 22;

pub const ROWS: usize = 41;

pub const FIELDS: [Field; ROWS] = [
    // the map's version
    Field {
        offset: 0,
        words: 1,
        access: Access::ReadOnly,
        owners: DEVICE,
    },
    // the device's id
    Field {
        offset: 1,
        words: 1,
        access: Access::ReadOnly,
        owners: DEVICE,
    },
    // the clock
    Field {
        offset: 2,
        words: 2,
        access: Access::ReadOnly,
        owners: DEVICE,
    },
    // good messages
    Field {
        offset: 4,
        words: 1,
        access: Access::ReadOnly,
        owners: DEVICE,
    },
    // bad messages
    Field {
        offset: 5,
        words: 1,
        access: Access::ReadOnly,
        owners: DEVICE,
    },
    // exceptions
    Field {
        offset: 6,
        words: 1,
        access: Access::ReadOnly,
        owners: DEVICE,
    },
    // the journal's capacity
    Field {
        offset: 7,
        words: 1,
        access: Access::ReadOnly,
        owners: DEVICE,
    },
    // entries in use
    Field {
        offset: 8,
        words: 1,
        access: Access::ReadOnly,
        owners: DEVICE,
    },
    // the technician's number
    Field {
        offset: 9,
        words: 1,
        access: Access::Writable,
        owners: DEVICE,
    },
    // the sensor's number
    Field {
        offset: 0,
        words: 1,
        access: Access::ReadOnly,
        owners: SENSORS,
    },
    // last calibration
    Field {
        offset: 1,
        words: 2,
        access: Access::ReadOnly,
        owners: SENSORS,
    },
    // next calibration
    Field {
        offset: 3,
        words: 2,
        access: Access::Writable,
        owners: SENSORS,
    },
    // command
    Field {
        offset: 5,
        words: 1,
        access: Access::Writable,
        owners: SENSORS,
    },
    // method
    Field {
        offset: 6,
        words: 1,
        access: Access::Modal,
        owners: SENSORS_1_2_4,
    },
    // number of parameters
    Field {
        offset: 7,
        words: 1,
        access: Access::ReadOnly,
        owners: SENSORS,
    },
    // coefficient 1
    Field {
        offset: 10,
        words: 2,
        access: Access::Modal,
        owners: SENSORS,
    },
    // coefficient 2
    Field {
        offset: 12,
        words: 2,
        access: Access::Modal,
        owners: SENSORS,
    },
    // coefficient 3
    Field {
        offset: 14,
        words: 2,
        access: Access::Modal,
        owners: SENSOR_3,
    },
    // x1
    Field {
        offset: 16,
        words: 2,
        access: Access::Modal,
        owners: SENSORS_1_2_4,
    },
    // y1
    Field {
        offset: 18,
        words: 2,
        access: Access::Modal,
        owners: SENSORS_1_2_4,
    },
    // x2
    Field {
        offset: 20,
        words: 2,
        access: Access::Modal,
        owners: SENSORS_1_2_4,
    },
    // y2
    Field {
        offset: 22,
        words: 2,
        access: Access::Modal,
        owners: SENSORS_1_2_4,
    },
    // parameter 1: value
    Field {
        offset: 30,
        words: 2,
        access: Access::ReadOnly,
        owners: SENSORS,
    },
    // parameter 1: id
    Field {
        offset: 32,
        words: 1,
        access: Access::ReadOnly,
        owners: SENSORS,
    },
    // parameter 1: units
    Field {
        offset: 33,
        words: 1,
        access: Access::Writable,
        owners: SENSORS,
    },
    // parameter 1: quality
    Field {
        offset: 34,
        words: 1,
        access: Access::ReadOnly,
        owners: SENSORS,
    },
    // parameter 1: sentinel
    Field {
        offset: 35,
        words: 2,
        access: Access::Writable,
        owners: SENSORS,
    },
    // parameter 1: available units
    Field {
        offset: 37,
        words: 1,
        access: Access::ReadOnly,
        owners: SENSORS,
    },
    // parameter 2: value
    Field {
        offset: 38,
        words: 2,
        access: Access::ReadOnly,
        owners: SENSORS_1_3,
    },
    // parameter 2: id, of sensor 1
    Field {
        offset: 40,
        words: 1,
        access: Access::ReadOnly,
        owners: SENSOR_1,
    },
    // parameter 2: id, of the level
    Field {
        offset: 40,
        words: 1,
        access: Access::Writable,
        owners: SENSOR_3,
    },
    // parameter 2: units
    Field {
        offset: 41,
        words: 1,
        access: Access::Writable,
        owners: SENSORS_1_3,
    },
    // parameter 2: quality
    Field {
        offset: 42,
        words: 1,
        access: Access::ReadOnly,
        owners: SENSORS_1_3,
    },
    // parameter 2: sentinel
    Field {
        offset: 43,
        words: 2,
        access: Access::Writable,
        owners: SENSORS_1_3,
    },
    // parameter 2: available units
    Field {
        offset: 45,
        words: 1,
        access: Access::ReadOnly,
        owners: SENSORS_1_3,
    },
    // parameter 3: value
    Field {
        offset: 46,
        words: 2,
        access: Access::ReadOnly,
        owners: SENSOR_1,
    },
    // parameter 3: id
    Field {
        offset: 48,
        words: 1,
        access: Access::ReadOnly,
        owners: SENSOR_1,
    },
    // parameter 3: units
    Field {
        offset: 49,
        words: 1,
        access: Access::Writable,
        owners: SENSOR_1,
    },
    // parameter 3: quality
    Field {
        offset: 50,
        words: 1,
        access: Access::ReadOnly,
        owners: SENSOR_1,
    },
    // parameter 3: sentinel
    Field {
        offset: 51,
        words: 2,
        access: Access::Writable,
        owners: SENSOR_1,
    },
    // parameter 3: available units
    Field {
        offset: 53,
        words: 1,
        access: Access::ReadOnly,
        owners: SENSOR_1,
    },
];

// The table, for a search of it.
pub fn table() -> [Field; ROWS]
    ensures { result ≡ fields }
{
    FIELDS
}
