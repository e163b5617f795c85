/// A configuration and labels for it, as texts.
#[derive(Debug, Drop)]
pub struct Text {
    pub config: String,
    pub labels: String,
}
