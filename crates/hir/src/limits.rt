// Every limit and every fixed count of documents 01 and 02, by the names of model/specs/Limits.

pub const LEAST_WORKSPACE: usize = 16384;

pub const MOST_SHEET: usize = 16384;

pub const FLAG_COUNT: u32 = 2;

pub const MOST_FLAG: u32 = 1;

pub const MOST_IDENTIFIERS: u32 = 512;

pub const MOST_RANGE: u32 = 1000000;

pub const MOST_TYPE: u32 = 2;

pub const MOST_FUNCTIONS: u32 = 64;

pub const MOST_INNER_DIAGNOSTICS: u32 = 64;

pub const MOST_INNER_CONTEXT: u32 = 64;

pub const MOST_DIAGNOSTIC: u32 = 65535;

pub const MOST_PARAMS: u32 = 64;

pub const MOST_CONTEXT: u32 = 64;

pub const RETURNS_COUNT: u32 = 1;

pub const MOST_BLOCKS: u32 = 256;

pub const MOST_BLOCK_NUMBER: u32 = 65535;

pub const MOST_COUNT: u32 = 1024;

pub const MOST_ORDER: u32 = 999999;

pub const MOST_LVALUES: u32 = 64;

pub const MOST_OPERANDS: u32 = 64;

pub const NO_OPERANDS: u32 = 0;

pub const MOST_VALUE: u32 = 2;

pub const MOST_TERMINAL: u32 = 2;

pub const MOST_TRAITS: u32 = 15;

pub const MOST_KIND: u32 = 17;

pub const MOST_RELATIONS: usize = 1024;

pub const MOST_MUTATIONS: u32 = 512;

pub const MOST_RENDERS: u32 = 256;

pub const LAST_SERIAL: u32 = 4294967295;

pub const ABSENT_COUNT: u32 = 4294967295;

pub const LEAST_LOAD_IDENTIFIERS: u32 = 2;

pub const LEAST_LOAD_EFFECTS: u32 = 1;

pub const MOST_LOAD_EFFECTS: u32 = 512;

pub const LAST_REFUSAL: u32 = 10;
