//! The demo configuration.

/// The text of the demo configuration, a meter with an object of each class (own profile): `demo` answers by it, and it is the
/// text of the file `demo.toml` that people copy.
pub const DEMO: &str = r#"version = 1
client = [
 { name = "public", sap = 16 },
 { name = "reader", sap = 32, password = "12345678" },
 { name = "installer", sap = 48, password = "87654321" },
 { name = "manager", sap = 1, password = "00000000" },
]
object = [
 { class = 3, name = "1.0.1.8.0.255", fed = true, value = "060001E240", default = "0600000000", scaler = 0, unit = 30 },
 { class = 1, name = "0.0.96.11.0.255", value = "1100" },
 { class = 9, name = "0.0.10.0.100.255", script = [
  { id = 1, action = [ { service = 1, object = "0.0.96.11.0.255", index = 2, value = "1101" } ] },
  { id = 2, action = [ { service = 1, object = "0.0.96.11.0.255", index = 2, value = "1100" } ] },
  { id = 3, action = [ { service = 2, object = "1.0.99.1.0.255", index = 2 } ] } ] },
 { class = 21, name = "0.0.16.1.0.255", monitored = { object = "1.0.1.8.0.255", index = 2 }, thresholds = ["0600000064"], action = [
  { up = { table = "0.0.10.0.100.255", script = 1 }, down = { table = "0.0.10.0.100.255", script = 2 } } ] },
 { class = 7, name = "1.0.99.1.0.255", period = 900, entries = 2, capture = [
  { object = "1.0.1.8.0.255", index = 2 }, { object = "0.0.96.11.0.255", index = 2 } ] },
 { class = 22, name = "0.0.15.0.0.255", script = { table = "0.0.10.0.100.255", script = 3 }, type = 1, times = ["000000FFFFFFFFFEFF"] },
]
right = [
 { client = "public", object = "1.0.1.8.0.255" },
 { client = "reader", object = "1.0.1.8.0.255", get = [2, 3] },
 { client = "reader", object = "0.0.96.11.0.255", get = [2] },
 { client = "reader", object = "1.0.99.1.0.255", get = [2, 3, 4, 7, 8] },
 { client = "installer", object = "1.0.99.1.0.255", get = [4], set = [4] },
 { client = "installer", object = "0.0.15.0.0.255", get = [2, 3, 4], set = [4] },
 { client = "manager", object = "1.0.1.8.0.255", get = [2, 3], act = [1] },
 { client = "manager", object = "0.0.96.11.0.255", get = [2], set = [2] },
 { client = "manager", object = "0.0.10.0.100.255", get = [2], act = [1] },
 { client = "manager", object = "0.0.16.1.0.255", get = [2, 3, 4], set = [2] },
 { client = "manager", object = "1.0.99.1.0.255", get = [2, 3, 4, 7, 8], act = [1, 2] },
 { client = "manager", object = "0.0.15.0.0.255", get = [2, 3, 4] },
]
policy = { influence = ["manager"], learn = ["reader", "manager"] }
label = [
 { object = "1.0.99.1.0.255", index = 2, influence = ["installer", "manager"], learn = ["reader", "manager"] },
 { object = "1.0.99.1.0.255", index = 4, influence = ["installer"], learn = ["reader", "installer", "manager"] },
 { object = "1.0.99.1.0.255", index = 7, influence = ["installer", "manager"], learn = ["reader", "manager"] },
 { object = "0.0.15.0.0.255", index = 4, influence = ["installer"], learn = ["reader", "installer", "manager"] },
]
"#;
