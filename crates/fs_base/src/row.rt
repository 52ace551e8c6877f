use crate::items::Text;

/// A key and the value stored at it, both as bytes.
#[derive(Debug, Drop)]
pub struct Row {
    pub key: Text,
    pub value: Text,
}
