// The tags and types of document 01, each the number that its four bytes make. The specification writes them as text.

// The file.
pub const FORM: u32 = 0x464F_524D;

pub const LWOB: u32 = 0x4C57_4F42;

pub const LWO2: u32 = 0x4C57_4F32;

// Chunks.
pub const PNTS: u32 = 0x504E_5453;

pub const SRFS: u32 = 0x5352_4653;

pub const TAGS: u32 = 0x5441_4753;

pub const POLS: u32 = 0x504F_4C53;

pub const PCHS: u32 = 0x5043_4853;

pub const PTAG: u32 = 0x5054_4147;

pub const SURF: u32 = 0x5355_5246;

pub const LAYR: u32 = 0x4C41_5952;

// Types of a POLS.
pub const FACE: u32 = 0x4641_4345;

pub const PTCH: u32 = 0x5054_4348;

// The type of a PTAG of parts. One of surfaces has the type SURF.
pub const PART: u32 = 0x5041_5254;

// Sub-chunks of a SURF.
pub const COLR: u32 = 0x434F_4C52;

pub const LUMI: u32 = 0x4C55_4D49;

pub const DIFF: u32 = 0x4449_4646;

pub const SPEC: u32 = 0x5350_4543;

pub const REFL: u32 = 0x5245_464C;

pub const TRAN: u32 = 0x5452_414E;

pub const VLUM: u32 = 0x564C_554D;

pub const VDIF: u32 = 0x5644_4946;

pub const VSPC: u32 = 0x5653_5043;

pub const VRFL: u32 = 0x5652_464C;

pub const VTRN: u32 = 0x5654_524E;

pub const FLAG: u32 = 0x464C_4147;

pub const SIDE: u32 = 0x5349_4445;

pub const BLOK: u32 = 0x424C_4F4B;

// Sub-chunks of a BLOK: its header, and what holds attributes below it.
pub const IMAP: u32 = 0x494D_4150;

pub const PROC: u32 = 0x5052_4F43;

pub const GRAD: u32 = 0x4752_4144;

pub const SHDR: u32 = 0x5348_4452;

pub const TMAP: u32 = 0x544D_4150;
