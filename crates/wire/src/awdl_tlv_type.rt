// The type numbers of the items that are known by name. They are bytes and no enum: any other byte is a type too, and is handed on as it is.
#[derive(Drop)]
pub struct AWDLTLVType;

impl AWDLTLVType {
    pub const NULL: u8 = 0x00;

    pub const SERVICE_RESPONSE: u8 = 0x02;

    pub const SYNCHRONIZATION_PARAMETERS: u8 = 0x04;

    pub const ELECTION_PARAMETERS: u8 = 0x05;

    pub const HT_CAPABILITIES: u8 = 0x07;

    pub const DATA_PATH_STATE: u8 = 0x0C;

    pub const ARPA: u8 = 0x10;

    pub const IEEE80211_CONTAINER: u8 = 0x11;

    pub const CHANNEL_SEQUENCE: u8 = 0x12;

    pub const SYNCHRONIZATION_TREE: u8 = 0x14;

    pub const VERSION: u8 = 0x15;

    pub const ELECTION_PARAMETERS_V2: u8 = 0x18;
}
