// Where each part of a record stands in a slot (docs/SLOT.md).

// Levels, the walk through the types, and the profile.
pub const LEVEL: usize = 0;

pub const LAST_LEVEL: usize = 1;

pub const MIN_LEVEL: usize = 2;

pub const MAX_LEVEL: usize = 3;

pub const MINIMUM: usize = 4;

pub const WALK: usize = 5;

pub const SHORT: usize = 6;

pub const TYPE_COUNT: usize = 7;

pub const RANDOM: usize = 8;

pub const CHANNEL_COUNT: usize = 12;

pub const FADE_TIME: usize = 13;

pub const FADE_RATE: usize = 14;

pub const EXTENDED_FADE: usize = 15;

pub const TYPES: usize = 16;

pub const GROUPS: usize = 32;

// Flags.
pub const LIMIT_ERROR: usize = 48;

pub const RESET_STATE: usize = 49;

pub const CYCLED: usize = 50;

pub const INITIALISE: usize = 51;

pub const WITHDRAWN: usize = 52;

pub const IDENTIFYING: usize = 53;

pub const WRITABLE: usize = 54;

pub const PAIR: usize = 55;

pub const ADJUSTABLE: usize = 56;

pub const HOLDS: usize = 57;

pub const BARE: usize = 58;

pub const CAN_TC: usize = 59;

pub const CAN_XY: usize = 60;

pub const OUTSIDE: usize = 61;

pub const ENABLED: usize = 62;

pub const LAMP_FAILURE: usize = 63;

pub const LAMP_STARTING: usize = 64;

pub const FAULT_UNSTORED: usize = 65;

pub const FAULT_HOLDS: usize = 66;

// Numbers.
pub const FEATURES: usize = 67;

pub const CURVE: usize = 68;

pub const FAULT_FORCED: usize = 69;

pub const FAULT_FAILURE: usize = 70;

pub const FAULT_DROP: usize = 71;

pub const FRAME: usize = 73;

pub const COOLEST: usize = 75;

pub const WARMEST: usize = 77;

pub const PHYSICAL_COOLEST: usize = 79;

pub const PHYSICAL_WARMEST: usize = 81;

// Colours, settings, each of which is a colour and a level, and the memory banks.
pub const ACTIVE: usize = 83;

pub const STAGED: usize = 97;

pub const REPORT: usize = 111;

pub const ON: usize = 125;

pub const FAILURE: usize = 140;

pub const SCENES: usize = 155;

pub const IDENTITY: usize = 395;

pub const PROFILE: usize = 424;

pub const SPARE: usize = 441;

// Within a colour, and behind it the level of a setting; how long a setting is.
pub const X: usize = 0;

pub const Y: usize = 2;

pub const TC: usize = 4;

pub const CHANNEL_LEVELS: usize = 6;

pub const CONTROL: usize = 12;

pub const KIND: usize = 13;

pub const SETTING_LEVEL: usize = 14;

pub const SETTING_LEN: usize = 15;
