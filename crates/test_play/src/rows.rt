//! Texts, and what a reader of plays says of each. Made by `rows.py` of this crate.

/// A text, and what it is read as.
pub struct Row {
    pub text: &'static str,
    /// The first rule that fails, and 0 where none does.
    pub rule: u8,
    /// The hostile vats and what is done, each with its sign and a space behind it.
    pub play: &'static str,
}

pub const ROWS_0: [Row; 9] = [
    Row {
        text: "{\"key\": \"0000000000000000000000000000000000000000000000000000000000000000\", \"vats\": [{\"name\": \"a\", \"knows\": [], \"source\": \"1\"}, {\"name\": \"h\", \"knows\": [\"a\"], \"source\": \"\"}], \"schedule\": [], \"hostile\": [\"h\"]}",
        rule: 0,
        play: "h1 ",
    },
    Row {
        text: "{\"key\": \"0000000000000000000000000000000000000000000000000000000000000000\", \"vats\": [{\"name\": \"a\", \"knows\": [], \"source\": \"1\"}, {\"name\": \"h\", \"knows\": [\"a\"], \"source\": \"\"}], \"schedule\": [], \"hostile\": []}",
        rule: 0,
        play: "",
    },
    Row {
        text: "{\"key\": \"0000000000000000000000000000000000000000000000000000000000000000\", \"vats\": [{\"name\": \"a\", \"knows\": [], \"source\": \"1\"}, {\"name\": \"h\", \"knows\": [\"a\"], \"source\": \"\"}], \"schedule\": []}",
        rule: 0,
        play: "",
    },
    Row {
        text: "{\"key\": \"0000000000000000000000000000000000000000000000000000000000000000\", \"vats\": [{\"name\": \"a\", \"knows\": [], \"source\": \"1\"}, {\"name\": \"h\", \"knows\": [\"a\"], \"source\": \"\"}], \"schedule\": [], \"hostile\": [\"h\"], \"fuel\": 5}",
        rule: 0,
        play: "h1 ",
    },
    Row {
        text: "{\"key\": \"0000000000000000000000000000000000000000000000000000000000000000\", \"vats\": [], \"schedule\": [], \"hostile\": []}",
        rule: 0,
        play: "",
    },
    Row {
        text: "{\"key\": \"0000000000000000000000000000000000000000000000000000000000000000\", \"vats\": [{\"name\": \"a\", \"knows\": [], \"source\": \"1\"}, {\"name\": \"h\", \"knows\": [\"a\"], \"source\": \"\"}], \"schedule\": [\"carry a h\", \"inject h a 0100090003707574010305\", \"carry h a\", \"turn a\", \"drain 1\"], \"hostile\": [\"h\"]}",
        rule: 0,
        play: "h1 c0-1 i1-0:0100090003707574010305 c1-0 t0 t0 t1 c0-1 c1-0 ",
    },
    Row {
        text: "{\"key\": \"0000000000000000000000000000000000000000000000000000000000000000\", \"vats\": [{\"name\": \"h\", \"knows\": [], \"source\": \"\"}, {\"name\": \"a\", \"knows\": [], \"source\": \"2\"}, {\"name\": \"i\", \"knows\": [\"h\"], \"source\": \"\"}], \"schedule\": [\"inject h a 00\", \"inject i h ff\"], \"hostile\": [\"i\", \"h\"]}",
        rule: 0,
        play: "h2 h0 i0-1:00 i2-0:ff ",
    },
    Row {
        text: "{\"key\": \"0000000000000000000000000000000000000000000000000000000000000000\", \"vats\": [{\"name\": \"a\", \"knows\": [], \"source\": \"1\"}, {\"name\": \"h\", \"knows\": [\"a\"], \"source\": \"\"}], \"schedule\": [\"inject h a 01\", \"cut a h\", \"inject h a 01\", \"notice h a\", \"notice a h\"], \"hostile\": [\"h\"]}",
        rule: 0,
        play: "h1 i1-0:01 x0-1 i1-0:01 n1-0 n0-1 ",
    },
    Row {
        text: "{\"key\": \"0000000000000000000000000000000000000000000000000000000000000000\", \"vats\": [{\"name\": \"a\", \"knows\": [], \"source\": \"1\"}, {\"name\": \"h\", \"knows\": [\"a\"], \"source\": \"\"}], \"schedule\": [\"turn a\", \"carry a h\", \"cut a h\", \"notice h a\"], \"hostile\": []}",
        rule: 0,
        play: "t0 c0-1 x0-1 n1-0 ",
    },
];

pub const ROWS_1: [Row; 9] = [
    Row {
        text: "{\"key\": \"0000000000000000000000000000000000000000000000000000000000000000\", \"vats\": [], \"schedule\": [\"drain 100000\"], \"hostile\": []}",
        rule: 0,
        play: "",
    },
    Row {
        text: "",
        rule: 1,
        play: "",
    },
    Row {
        text: "{",
        rule: 1,
        play: "",
    },
    Row {
        text: "{\"key\": \"0000000000000000000000000000000000000000000000000000000000000000\", \"vats\": [{\"name\": \"a\", \"knows\": [], \"source\": \"1\"}, {\"name\": \"h\", \"knows\": [\"a\"], \"source\": \"\"}], \"schedule\": [], \"hostile\": [\"h\"]} x",
        rule: 1,
        play: "",
    },
    Row {
        text: "[]",
        rule: 2,
        play: "",
    },
    Row {
        text: "{\"vats\": [{\"name\": \"a\", \"knows\": [], \"source\": \"1\"}, {\"name\": \"h\", \"knows\": [\"a\"], \"source\": \"\"}], \"schedule\": [], \"hostile\": [\"h\"]}",
        rule: 2,
        play: "",
    },
    Row {
        text: "{\"key\": \"0000000000000000000000000000000000000000000000000000000000000000\", \"vats\": [{\"name\": \"a\", \"knows\": [], \"source\": \"1\"}, {\"name\": \"h\", \"knows\": [\"a\"], \"source\": \"\"}], \"schedule\": [], \"hostile\": [\"h\"], \"hostil\": []}",
        rule: 2,
        play: "",
    },
    Row {
        text: "{\"key\": \"0000000000000000000000000000000000000000000000000000000000000000\", \"schedule\": [], \"hostile\": [\"h\"]}",
        rule: 2,
        play: "",
    },
    Row {
        text: "{\"key\": \"0000000000000000000000000000000000000000000000000000000000000000\", \"vats\": [{\"name\": \"a\", \"knows\": [], \"source\": \"1\"}, {\"name\": \"h\", \"knows\": [\"a\"], \"source\": \"\"}], \"hostile\": [\"h\"]}",
        rule: 2,
        play: "",
    },
];

pub const ROWS_2: [Row; 9] = [
    Row {
        text: "{\"key\": \"000000000000000000000000000000000000000000000000000000000000000\", \"vats\": [{\"name\": \"a\", \"knows\": [], \"source\": \"1\"}, {\"name\": \"h\", \"knows\": [\"a\"], \"source\": \"\"}], \"schedule\": [], \"hostile\": [\"h\"]}",
        rule: 3,
        play: "",
    },
    Row {
        text: "{\"key\": \"000000000000000000000000000000000000000000000000000000000000000A\", \"vats\": [{\"name\": \"a\", \"knows\": [], \"source\": \"1\"}, {\"name\": \"h\", \"knows\": [\"a\"], \"source\": \"\"}], \"schedule\": [], \"hostile\": [\"h\"]}",
        rule: 3,
        play: "",
    },
    Row {
        text: "{\"key\": null, \"vats\": [{\"name\": \"a\", \"knows\": [], \"source\": \"1\"}, {\"name\": \"h\", \"knows\": [\"a\"], \"source\": \"\"}], \"schedule\": [], \"hostile\": [\"h\"]}",
        rule: 3,
        play: "",
    },
    Row {
        text: "{\"key\": \"0000000000000000000000000000000000000000000000000000000000000000\", \"vats\": [{\"name\": \"a\", \"knows\": [], \"source\": \"1\"}, {\"name\": \"h\", \"knows\": [\"a\"], \"source\": \"\"}], \"schedule\": [], \"hostile\": [\"h\"], \"fuel\": 0}",
        rule: 4,
        play: "",
    },
    Row {
        text: "{\"key\": \"0000000000000000000000000000000000000000000000000000000000000000\", \"vats\": [{\"name\": \"a\", \"knows\": [], \"source\": \"1\"}, {\"name\": \"h\", \"knows\": [\"a\"], \"source\": \"\"}], \"schedule\": [], \"hostile\": [\"h\"], \"fuel\": 5.0}",
        rule: 4,
        play: "",
    },
    Row {
        text: "{\"key\": \"0000000000000000000000000000000000000000000000000000000000000000\", \"vats\": [{\"name\": \"a\", \"knows\": [], \"source\": \"1\"}, {\"name\": \"h\", \"knows\": [\"a\"], \"source\": \"\"}], \"schedule\": [], \"hostile\": [\"h\"], \"fuel\": 10000001}",
        rule: 4,
        play: "",
    },
    Row {
        text: "{\"key\": \"0000000000000000000000000000000000000000000000000000000000000000\", \"vats\": [{\"name\": \"a\", \"knows\": [], \"source\": \"1\"}, {\"name\": \"h\", \"knows\": [\"a\"], \"source\": \"\"}], \"schedule\": [], \"hostile\": [\"h\"], \"fuel\": null}",
        rule: 4,
        play: "",
    },
    Row {
        text: "{\"key\": \"0000000000000000000000000000000000000000000000000000000000000000\", \"vats\": [{\"name\": \"v0\", \"knows\": [], \"source\": \"\"}, {\"name\": \"v1\", \"knows\": [], \"source\": \"\"}, {\"name\": \"v2\", \"knows\": [], \"source\": \"\"}, {\"name\": \"v3\", \"knows\": [], \"source\": \"\"}, {\"name\": \"v4\", \"knows\": [], \"source\": \"\"}, {\"name\": \"v5\", \"knows\": [], \"source\": \"\"}, {\"name\": \"v6\", \"knows\": [], \"source\": \"\"}, {\"name\": \"v7\", \"knows\": [], \"source\": \"\"}, {\"name\": \"v8\", \"knows\": [], \"source\": \"\"}, {\"name\": \"v9\", \"knows\": [], \"source\": \"\"}, {\"name\": \"v10\", \"knows\": [], \"source\": \"\"}, {\"name\": \"v11\", \"knows\": [], \"source\": \"\"}, {\"name\": \"v12\", \"knows\": [], \"source\": \"\"}, {\"name\": \"v13\", \"knows\": [], \"source\": \"\"}, {\"name\": \"v14\", \"knows\": [], \"source\": \"\"}, {\"name\": \"v15\", \"knows\": [], \"source\": \"\"}, {\"name\": \"v16\", \"knows\": [], \"source\": \"\"}], \"schedule\": [], \"hostile\": []}",
        rule: 5,
        play: "",
    },
    Row {
        text: "{\"key\": \"0000000000000000000000000000000000000000000000000000000000000000\", \"vats\": [{\"name\": \"a\", \"knows\": [], \"source\": 1}], \"schedule\": [], \"hostile\": []}",
        rule: 5,
        play: "",
    },
];

pub const ROWS_3: [Row; 9] = [
    Row {
        text: "{\"key\": \"0000000000000000000000000000000000000000000000000000000000000000\", \"vats\": [{\"name\": \"a\", \"knows\": null, \"source\": \"\"}], \"schedule\": [], \"hostile\": []}",
        rule: 5,
        play: "",
    },
    Row {
        text: "{\"key\": \"0000000000000000000000000000000000000000000000000000000000000000\", \"vats\": [{\"name\": \"if\", \"knows\": [], \"source\": \"\"}], \"schedule\": [], \"hostile\": []}",
        rule: 6,
        play: "",
    },
    Row {
        text: "{\"key\": \"0000000000000000000000000000000000000000000000000000000000000000\", \"vats\": [{\"name\": \"a\", \"knows\": [], \"source\": \"\"}, {\"name\": \"a\", \"knows\": [], \"source\": \"\"}], \"schedule\": [], \"hostile\": []}",
        rule: 6,
        play: "",
    },
    Row {
        text: "{\"key\": \"0000000000000000000000000000000000000000000000000000000000000000\", \"vats\": [{\"name\": \"A\", \"knows\": [], \"source\": \"\"}], \"schedule\": [], \"hostile\": []}",
        rule: 6,
        play: "",
    },
    Row {
        text: "{\"key\": \"0000000000000000000000000000000000000000000000000000000000000000\", \"vats\": [{\"name\": \"a\", \"knows\": [\"a\"], \"source\": \"\"}], \"schedule\": [], \"hostile\": []}",
        rule: 8,
        play: "",
    },
    Row {
        text: "{\"key\": \"0000000000000000000000000000000000000000000000000000000000000000\", \"vats\": [{\"name\": \"a\", \"knows\": [\"h\"], \"source\": \"\"}], \"schedule\": [], \"hostile\": []}",
        rule: 8,
        play: "",
    },
    Row {
        text: "{\"key\": \"0000000000000000000000000000000000000000000000000000000000000000\", \"vats\": [{\"name\": \"a\", \"knows\": [], \"source\": \"1\"}, {\"name\": \"h\", \"knows\": [\"a\"], \"source\": \"\"}], \"schedule\": \"turn a\", \"hostile\": [\"h\"]}",
        rule: 9,
        play: "",
    },
    Row {
        text: "{\"key\": \"0000000000000000000000000000000000000000000000000000000000000000\", \"vats\": [{\"name\": \"a\", \"knows\": [], \"source\": \"1\"}, {\"name\": \"h\", \"knows\": [\"a\"], \"source\": \"\"}], \"schedule\": [5], \"hostile\": [\"h\"]}",
        rule: 9,
        play: "",
    },
    Row {
        text: "{\"key\": \"0000000000000000000000000000000000000000000000000000000000000000\", \"vats\": [{\"name\": \"a\", \"knows\": [], \"source\": \"1\"}, {\"name\": \"h\", \"knows\": [\"a\"], \"source\": \"\"}], \"schedule\": [\"turn\"], \"hostile\": [\"h\"]}",
        rule: 9,
        play: "",
    },
];

pub const ROWS_4: [Row; 9] = [
    Row {
        text: "{\"key\": \"0000000000000000000000000000000000000000000000000000000000000000\", \"vats\": [{\"name\": \"a\", \"knows\": [], \"source\": \"1\"}, {\"name\": \"h\", \"knows\": [\"a\"], \"source\": \"\"}], \"schedule\": [\"turn \"], \"hostile\": [\"h\"]}",
        rule: 9,
        play: "",
    },
    Row {
        text: "{\"key\": \"0000000000000000000000000000000000000000000000000000000000000000\", \"vats\": [{\"name\": \"a\", \"knows\": [], \"source\": \"1\"}, {\"name\": \"h\", \"knows\": [\"a\"], \"source\": \"\"}], \"schedule\": [\"turn  a\"], \"hostile\": [\"h\"]}",
        rule: 9,
        play: "",
    },
    Row {
        text: "{\"key\": \"0000000000000000000000000000000000000000000000000000000000000000\", \"vats\": [{\"name\": \"a\", \"knows\": [], \"source\": \"1\"}, {\"name\": \"h\", \"knows\": [\"a\"], \"source\": \"\"}], \"schedule\": [\"drain 0\"], \"hostile\": [\"h\"]}",
        rule: 9,
        play: "",
    },
    Row {
        text: "{\"key\": \"0000000000000000000000000000000000000000000000000000000000000000\", \"vats\": [{\"name\": \"a\", \"knows\": [], \"source\": \"1\"}, {\"name\": \"h\", \"knows\": [\"a\"], \"source\": \"\"}], \"schedule\": [\"drain 100001\"], \"hostile\": [\"h\"]}",
        rule: 9,
        play: "",
    },
    Row {
        text: "{\"key\": \"0000000000000000000000000000000000000000000000000000000000000000\", \"vats\": [{\"name\": \"a\", \"knows\": [], \"source\": \"1\"}, {\"name\": \"h\", \"knows\": [\"a\"], \"source\": \"\"}], \"schedule\": [\"Turn a\"], \"hostile\": [\"h\"]}",
        rule: 9,
        play: "",
    },
    Row {
        text: "{\"key\": \"0000000000000000000000000000000000000000000000000000000000000000\", \"vats\": [{\"name\": \"a\", \"knows\": [], \"source\": \"1\"}, {\"name\": \"h\", \"knows\": [\"a\"], \"source\": \"\"}], \"schedule\": [\"inject h a\"], \"hostile\": [\"h\"]}",
        rule: 9,
        play: "",
    },
    Row {
        text: "{\"key\": \"0000000000000000000000000000000000000000000000000000000000000000\", \"vats\": [{\"name\": \"a\", \"knows\": [], \"source\": \"1\"}, {\"name\": \"h\", \"knows\": [\"a\"], \"source\": \"\"}], \"schedule\": [\"inject h a \"], \"hostile\": [\"h\"]}",
        rule: 9,
        play: "",
    },
    Row {
        text: "{\"key\": \"0000000000000000000000000000000000000000000000000000000000000000\", \"vats\": [{\"name\": \"a\", \"knows\": [], \"source\": \"1\"}, {\"name\": \"h\", \"knows\": [\"a\"], \"source\": \"\"}], \"schedule\": [\"inject h a 0\"], \"hostile\": [\"h\"]}",
        rule: 9,
        play: "",
    },
    Row {
        text: "{\"key\": \"0000000000000000000000000000000000000000000000000000000000000000\", \"vats\": [{\"name\": \"a\", \"knows\": [], \"source\": \"1\"}, {\"name\": \"h\", \"knows\": [\"a\"], \"source\": \"\"}], \"schedule\": [\"inject h a 012\"], \"hostile\": [\"h\"]}",
        rule: 9,
        play: "",
    },
];

pub const ROWS_5: [Row; 9] = [
    Row {
        text: "{\"key\": \"0000000000000000000000000000000000000000000000000000000000000000\", \"vats\": [{\"name\": \"a\", \"knows\": [], \"source\": \"1\"}, {\"name\": \"h\", \"knows\": [\"a\"], \"source\": \"\"}], \"schedule\": [\"inject h a 0A\"], \"hostile\": [\"h\"]}",
        rule: 9,
        play: "",
    },
    Row {
        text: "{\"key\": \"0000000000000000000000000000000000000000000000000000000000000000\", \"vats\": [{\"name\": \"a\", \"knows\": [], \"source\": \"1\"}, {\"name\": \"h\", \"knows\": [\"a\"], \"source\": \"\"}], \"schedule\": [\"inject h a 0g\"], \"hostile\": [\"h\"]}",
        rule: 9,
        play: "",
    },
    Row {
        text: "{\"key\": \"0000000000000000000000000000000000000000000000000000000000000000\", \"vats\": [{\"name\": \"a\", \"knows\": [], \"source\": \"1\"}, {\"name\": \"h\", \"knows\": [\"a\"], \"source\": \"\"}], \"schedule\": [\"inject h  a 00\"], \"hostile\": [\"h\"]}",
        rule: 9,
        play: "",
    },
    Row {
        text: "{\"key\": \"0000000000000000000000000000000000000000000000000000000000000000\", \"vats\": [{\"name\": \"a\", \"knows\": [], \"source\": \"1\"}, {\"name\": \"h\", \"knows\": [\"a\"], \"source\": \"\"}], \"schedule\": [\"inject h a 00 00\"], \"hostile\": [\"h\"]}",
        rule: 9,
        play: "",
    },
    Row {
        text: "{\"key\": \"0000000000000000000000000000000000000000000000000000000000000000\", \"vats\": [{\"name\": \"a\", \"knows\": [], \"source\": \"1\"}, {\"name\": \"h\", \"knows\": [\"a\"], \"source\": \"\"}], \"schedule\": [\"inject h a 00 \"], \"hostile\": [\"h\"]}",
        rule: 9,
        play: "",
    },
    Row {
        text: "{\"key\": \"0000000000000000000000000000000000000000000000000000000000000000\", \"vats\": [{\"name\": \"a\", \"knows\": [], \"source\": \"1\"}, {\"name\": \"h\", \"knows\": [\"a\"], \"source\": \"\"}], \"schedule\": [\"inject  h a 00\"], \"hostile\": [\"h\"]}",
        rule: 9,
        play: "",
    },
    Row {
        text: "{\"key\": \"0000000000000000000000000000000000000000000000000000000000000000\", \"vats\": [{\"name\": \"a\", \"knows\": [], \"source\": \"1\"}, {\"name\": \"h\", \"knows\": [\"a\"], \"source\": \"\"}], \"schedule\": [\"Inject h a 00\"], \"hostile\": [\"h\"]}",
        rule: 9,
        play: "",
    },
    Row {
        text: "{\"key\": \"0000000000000000000000000000000000000000000000000000000000000000\", \"vats\": [{\"name\": \"a\", \"knows\": [], \"source\": \"1\"}, {\"name\": \"h\", \"knows\": [\"a\"], \"source\": \"\"}], \"schedule\": [\"inject\"], \"hostile\": [\"h\"]}",
        rule: 9,
        play: "",
    },
    Row {
        text: "{\"key\": \"0000000000000000000000000000000000000000000000000000000000000000\", \"vats\": [{\"name\": \"a\", \"knows\": [], \"source\": \"1\"}, {\"name\": \"h\", \"knows\": [\"a\"], \"source\": \"\"}], \"schedule\": [\"inject h 00\"], \"hostile\": [\"h\"]}",
        rule: 9,
        play: "",
    },
];

pub const ROWS_6: [Row; 9] = [
    Row {
        text: "{\"key\": \"0000000000000000000000000000000000000000000000000000000000000000\", \"vats\": [{\"name\": \"a\", \"knows\": [], \"source\": \"1\"}, {\"name\": \"h\", \"knows\": [\"a\"], \"source\": \"\"}], \"schedule\": [\"turn b\"], \"hostile\": [\"h\"]}",
        rule: 10,
        play: "",
    },
    Row {
        text: "{\"key\": \"0000000000000000000000000000000000000000000000000000000000000000\", \"vats\": [{\"name\": \"a\", \"knows\": [], \"source\": \"1\"}, {\"name\": \"h\", \"knows\": [\"a\"], \"source\": \"\"}], \"schedule\": [\"carry a a\"], \"hostile\": [\"h\"]}",
        rule: 10,
        play: "",
    },
    Row {
        text: "{\"key\": \"0000000000000000000000000000000000000000000000000000000000000000\", \"vats\": [{\"name\": \"a\", \"knows\": [], \"source\": \"1\"}, {\"name\": \"h\", \"knows\": [\"a\"], \"source\": \"\"}], \"schedule\": [\"inject h h 00\"], \"hostile\": [\"h\"]}",
        rule: 10,
        play: "",
    },
    Row {
        text: "{\"key\": \"0000000000000000000000000000000000000000000000000000000000000000\", \"vats\": [{\"name\": \"a\", \"knows\": [], \"source\": \"1\"}, {\"name\": \"h\", \"knows\": [\"a\"], \"source\": \"\"}], \"schedule\": [\"inject h b 00\"], \"hostile\": [\"h\"]}",
        rule: 10,
        play: "",
    },
    Row {
        text: "{\"key\": \"0000000000000000000000000000000000000000000000000000000000000000\", \"vats\": [{\"name\": \"a\", \"knows\": [], \"source\": \"1\"}, {\"name\": \"h\", \"knows\": [\"a\"], \"source\": \"\"}], \"schedule\": [\"inject b a 00\"], \"hostile\": [\"h\"]}",
        rule: 10,
        play: "",
    },
    Row {
        text: "{\"key\": \"0000000000000000000000000000000000000000000000000000000000000000\", \"vats\": [{\"name\": \"a\", \"knows\": [], \"source\": \"1\"}, {\"name\": \"h\", \"knows\": [\"a\"], \"source\": \"\"}], \"schedule\": [\"turn A!\"], \"hostile\": [\"h\"]}",
        rule: 10,
        play: "",
    },
    Row {
        text: "{\"key\": \"0000000000000000000000000000000000000000000000000000000000000000\", \"vats\": [{\"name\": \"a\", \"knows\": [], \"source\": \"1\"}, {\"name\": \"b\", \"knows\": [], \"source\": \"1\"}], \"schedule\": [\"drain 25001\"], \"hostile\": []}",
        rule: 11,
        play: "",
    },
    Row {
        text: "{\"key\": \"0000000000000000000000000000000000000000000000000000000000000000\", \"vats\": [{\"name\": \"a\", \"knows\": [], \"source\": \"\"}, {\"name\": \"b\", \"knows\": [], \"source\": \"\"}], \"schedule\": [\"drain 25000\", \"inject a b 00\"], \"hostile\": [\"a\"]}",
        rule: 11,
        play: "",
    },
    Row {
        text: "{\"key\": \"0000000000000000000000000000000000000000000000000000000000000000\", \"vats\": [{\"name\": \"a\", \"knows\": [], \"source\": \"1\"}, {\"name\": \"b\", \"knows\": [], \"source\": \"1\"}], \"schedule\": [\"drain 25000\", \"turn a\"], \"hostile\": []}",
        rule: 11,
        play: "",
    },
];

pub const ROWS_7: [Row; 9] = [
    Row {
        text: "{\"key\": \"0000000000000000000000000000000000000000000000000000000000000000\", \"vats\": [{\"name\": \"a\", \"knows\": [], \"source\": \"1\"}, {\"name\": \"h\", \"knows\": [\"a\"], \"source\": \"\"}], \"schedule\": [\"notice a h\", \"cut a h\"], \"hostile\": [\"h\"]}",
        rule: 12,
        play: "",
    },
    Row {
        text: "{\"key\": \"0000000000000000000000000000000000000000000000000000000000000000\", \"vats\": [{\"name\": \"a\", \"knows\": [], \"source\": \"1\"}, {\"name\": \"h\", \"knows\": [\"a\"], \"source\": \"\"}], \"schedule\": [\"inject h a 01\", \"notice a h\"], \"hostile\": [\"h\"]}",
        rule: 12,
        play: "",
    },
    Row {
        text: "{\"key\": \"0000000000000000000000000000000000000000000000000000000000000000\", \"vats\": [{\"name\": \"a\", \"knows\": [], \"source\": \"1\"}, {\"name\": \"h\", \"knows\": [\"a\"], \"source\": \"\"}], \"schedule\": [], \"hostile\": null}",
        rule: 13,
        play: "",
    },
    Row {
        text: "{\"key\": \"0000000000000000000000000000000000000000000000000000000000000000\", \"vats\": [{\"name\": \"a\", \"knows\": [], \"source\": \"1\"}, {\"name\": \"h\", \"knows\": [\"a\"], \"source\": \"\"}], \"schedule\": [], \"hostile\": {}}",
        rule: 13,
        play: "",
    },
    Row {
        text: "{\"key\": \"0000000000000000000000000000000000000000000000000000000000000000\", \"vats\": [{\"name\": \"a\", \"knows\": [], \"source\": \"1\"}, {\"name\": \"h\", \"knows\": [\"a\"], \"source\": \"\"}], \"schedule\": [], \"hostile\": \"h\"}",
        rule: 13,
        play: "",
    },
    Row {
        text: "{\"key\": \"0000000000000000000000000000000000000000000000000000000000000000\", \"vats\": [{\"name\": \"a\", \"knows\": [], \"source\": \"1\"}, {\"name\": \"h\", \"knows\": [\"a\"], \"source\": \"\"}], \"schedule\": [], \"hostile\": [5]}",
        rule: 13,
        play: "",
    },
    Row {
        text: "{\"key\": \"0000000000000000000000000000000000000000000000000000000000000000\", \"vats\": [{\"name\": \"a\", \"knows\": [], \"source\": \"1\"}, {\"name\": \"h\", \"knows\": [\"a\"], \"source\": \"\"}], \"schedule\": [], \"hostile\": [\"b\"]}",
        rule: 13,
        play: "",
    },
    Row {
        text: "{\"key\": \"0000000000000000000000000000000000000000000000000000000000000000\", \"vats\": [{\"name\": \"a\", \"knows\": [], \"source\": \"1\"}, {\"name\": \"h\", \"knows\": [\"a\"], \"source\": \"\"}], \"schedule\": [], \"hostile\": [\"h\", \"h\"]}",
        rule: 13,
        play: "",
    },
    Row {
        text: "{\"key\": \"0000000000000000000000000000000000000000000000000000000000000000\", \"vats\": [{\"name\": \"a\", \"knows\": [], \"source\": \"1\"}, {\"name\": \"h\", \"knows\": [\"a\"], \"source\": \"\"}], \"schedule\": [], \"hostile\": [\"h\", \"\"]}",
        rule: 13,
        play: "",
    },
];

pub const ROWS_8: [Row; 9] = [
    Row {
        text: "{\"key\": \"0000000000000000000000000000000000000000000000000000000000000000\", \"vats\": [{\"name\": \"a\", \"knows\": [], \"source\": \"1\"}, {\"name\": \"h\", \"knows\": [\"a\"], \"source\": \"\"}], \"schedule\": [], \"hostile\": [\"a\"]}",
        rule: 14,
        play: "",
    },
    Row {
        text: "{\"key\": \"0000000000000000000000000000000000000000000000000000000000000000\", \"vats\": [{\"name\": \"a\", \"knows\": [], \"source\": \"1\"}, {\"name\": \"h\", \"knows\": [\"a\"], \"source\": \"\"}], \"schedule\": [], \"hostile\": [\"h\", \"a\"]}",
        rule: 14,
        play: "",
    },
    Row {
        text: "{\"key\": \"0000000000000000000000000000000000000000000000000000000000000000\", \"vats\": [{\"name\": \"h\", \"knows\": [], \"source\": \" \"}], \"schedule\": [], \"hostile\": [\"h\"]}",
        rule: 14,
        play: "",
    },
    Row {
        text: "{\"key\": \"0000000000000000000000000000000000000000000000000000000000000000\", \"vats\": [{\"name\": \"a\", \"knows\": [], \"source\": \"1\"}, {\"name\": \"h\", \"knows\": [\"a\"], \"source\": \"\"}], \"schedule\": [\"inject a h 00\"], \"hostile\": [\"h\"]}",
        rule: 15,
        play: "",
    },
    Row {
        text: "{\"key\": \"0000000000000000000000000000000000000000000000000000000000000000\", \"vats\": [{\"name\": \"a\", \"knows\": [], \"source\": \"1\"}, {\"name\": \"h\", \"knows\": [\"a\"], \"source\": \"\"}], \"schedule\": [\"inject h a 00\"], \"hostile\": []}",
        rule: 15,
        play: "",
    },
    Row {
        text: "{\"key\": \"0000000000000000000000000000000000000000000000000000000000000000\", \"vats\": [{\"name\": \"a\", \"knows\": [], \"source\": \"1\"}, {\"name\": \"h\", \"knows\": [\"a\"], \"source\": \"\"}], \"schedule\": [\"inject h a 00\"]}",
        rule: 15,
        play: "",
    },
    Row {
        text: "{\"key\": \"0000000000000000000000000000000000000000000000000000000000000000\", \"vats\": [{\"name\": \"a\", \"knows\": [], \"source\": \"1\"}, {\"name\": \"h\", \"knows\": [\"a\"], \"source\": \"\"}], \"schedule\": [\"inject h a 0\"], \"hostile\": [\"a\"]}",
        rule: 9,
        play: "",
    },
    Row {
        text: "{\"key\": \"0000000000000000000000000000000000000000000000000000000000000000\", \"vats\": [{\"name\": \"a\", \"knows\": [], \"source\": \"1\"}, {\"name\": \"h\", \"knows\": [\"a\"], \"source\": \"\"}], \"schedule\": [\"inject h h 00\"]}",
        rule: 10,
        play: "",
    },
    Row {
        text: "{\"key\": \"0000000000000000000000000000000000000000000000000000000000000000\", \"vats\": [{\"name\": \"a\", \"knows\": [], \"source\": \"1\"}, {\"name\": \"h\", \"knows\": [\"a\"], \"source\": \"\"}], \"schedule\": [\"notice a h\", \"inject a h 00\"], \"hostile\": [\"h\", \"h\"]}",
        rule: 12,
        play: "",
    },
];

pub const ROWS_9: [Row; 5] = [
    Row {
        text: "{\"key\": \"0000000000000000000000000000000000000000000000000000000000000000\", \"vats\": [{\"name\": \"a\", \"knows\": [], \"source\": \"1\"}, {\"name\": \"h\", \"knows\": [\"a\"], \"source\": \"\"}], \"schedule\": [\"inject a h 00\"], \"hostile\": [\"b\"]}",
        rule: 13,
        play: "",
    },
    Row {
        text: "{\"key\": \"0000000000000000000000000000000000000000000000000000000000000000\", \"vats\": [{\"name\": \"a\", \"knows\": [], \"source\": \"1\"}, {\"name\": \"h\", \"knows\": [\"a\"], \"source\": \"\"}], \"schedule\": [\"inject a h 00\"], \"hostile\": [\"a\"]}",
        rule: 14,
        play: "",
    },
    Row {
        text: "{\"key\": \"0000000000000000000000000000000000000000000000000000000000000000\", \"vats\": [{\"name\": \"a\", \"knows\": [], \"source\": \"1\"}, {\"name\": \"h\", \"knows\": [\"a\"], \"source\": \"\"}], \"schedule\": [\"inject b a 00\", \"inject h a 0\"], \"hostile\": [\"h\"]}",
        rule: 9,
        play: "",
    },
    Row {
        text: "{\"key\": \"0000000000000000000000000000000000000000000000000000000000000000\", \"vats\": [{\"name\": \"a\", \"knows\": [], \"source\": \"1\"}, {\"name\": \"h\", \"knows\": [\"a\"], \"source\": \"\"}], \"schedule\": [], \"hostile\": [\"h\"], \"fuel\": 0, \"hostil\": []}",
        rule: 2,
        play: "",
    },
    Row {
        text: "{\"key\": \"0000000000000000000000000000000000000000000000000000000000000000\", \"vats\": [{\"name\": \"a\", \"knows\": [], \"source\": \"1\"}, {\"name\": \"h\", \"knows\": [\"a\"], \"source\": \"\"}], \"schedule\": [\"drain 99999\", \"inject h h 00\"], \"hostile\": [\"h\"]}",
        rule: 10,
        play: "",
    },
];
