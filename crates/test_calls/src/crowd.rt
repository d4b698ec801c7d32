//! Names that were chosen to collide in the index of a table.

/// Names whose search begins in one region of an index, which finds them in trees once a table
/// holds 80 of them among as many others. `bench/collisions.py` chooses such names.
pub const CROWD: &[&str] = &[
    "CvPWazUt", "Yp-yNvb8", "aYPJoiwp", "Vomd9eLK", "4O__EsKu", "DMWt_JuV", "Q49xSbmq", "UWdeHCQF",
    "gw7jl2MV", "6ILtNZ9_", "Uha217to", "qbKTp303", "52BuX8B6", "r4QqNOOg", "iqISuj-l", "jHPpS6YO",
    "7wOcgp0K", "rDOC8HsD", "tydYW7Ax", "qxEDGrw_", "1ucx-IUm", "As0f5m3N", "iADCLX7s", "t9awE1eU",
    "lMZvJhpC", "7RGkrWO1", "RM2AfSVE", "-vlQg93P", "_oZpYaau", "3JhnTjgh", "ZevJlTkA", "xHv8yCA9",
    "YMmKv2o7", "uGWniyvK", "0TFqxMuS", "dHMOI0r_", "n9XV6uxE", "bu2nK0SY", "_UOJSBS8", "JSm3Lf1j",
    "PfV6a5zr", "rm0ZdP5C", "b5z-4tw7", "_fLhA7vf", "Y4aqodgJ", "Et6jPVun", "9NCiKe0a", "Mp584iBd",
    "DbxkZ4yi", "jLtI-u-3", "KQkW7io2", "oGTMYsC7", "blofyUoJ", "qAg6gZ1L", "y8eTKnIB", "952BEFso",
    "Vj20R0Hl", "rdmRFwO0", "8ntCOowj", "GT8xRpYG", "onKUjZcl", "fZC8DvNr", "K8Y20JgE", "xAQEx9ID",
    "58OdaLc4", "eS2U8LwJ", "vc9FFES5", "xLNcf3mm", "AnE3N8zo", "heMC7Vef", "jNcYVJzM", "yoTzDOAP",
    "xWK0NxEK", "U9hVV_Du", "G-wRLQQU", "rUYJtQkl", "FtnSVzUP", "mkvdCN-F", "eztcH5J0", "DJVUp5dF",
    "8pcSkCk4", "UTcFyx-0", "h-DKGD4J", "IE7XC3gI", "ORqaRRfQ", "HyxYMalD", "Puwx1n44", "inH5YTvV",
    "FOfaggu5", "bIP3Tc1I", "_umYbp0s", "UpW1Ol77", "uBm_2Hsl", "iyERHNN5", "vesVbeFO", "NVbL4nfS",
    "aBDQM5Xn", "l_a_FX7O", "t6ZXvkOE", "7DIznMgB",
];
